// Opens a ledger from bare lists, carries out calls on it one by one, and prints what each answers; then has the same calls
// carried out as one run on the same rules and queries, and prints the answers again.
#![tactic(auto)]

use book::answer::Answer;
use book::call::Call;
use book::ledger::Ledger;
use book::ledger::run::run;
use book::lists::RuleAtoms;
use notation::failures::Failure;
use notation::faults::{FolderFault, LineFault};
use notation::lists::list;
use notation::terms::{Atom, Term, Tie};
use notation::ties::{places, whole_tie};
use queries::body::Body;
use queries::query::Query;
use queries::rule::Rule;
use rewriting::steps::{Part, Step};
use search::guide::Plain;
use sources::text::TextSource;
use std::alloc::Global;
use std::io;

const FACTS: &[u8] = b"fact=p0(c4)\nfact=p3(c4)\nfact=p2(c4,n0)\n";

// How many ties a part may have.
const MOST_TIES: usize = 96;

fn atoms(heap: Global, text: &[u8]) -> Result<Vec<Atom<Term>>, Failure<LineFault>> {
    list(heap, b';', text)
}

// A dash is a breath or a lift, and three queries about breaths and lifts.
fn opened(heap: Global) -> Result<Ledger, Failure<FolderFault>> {
    let mut heads = Vec::new(heap);
    heads.push(atoms(heap, b"p1(v0)")?)?;
    heads.push(atoms(heap, b"p2(v0,v1)")?)?;
    let mut rules = Vec::new(heap);
    rules.push(RuleAtoms {
        body: atoms(heap, b"p0(v0)")?,
        heads,
    })?;
    let mut queries = Vec::new(heap);
    queries.push(atoms(heap, b"p1(v0);p3(v0)")?)?;
    queries.push(atoms(heap, b"p2(v0,v1)")?)?;
    queries.push(atoms(heap, b"p2(v0,v1);p3(v0)")?)?;
    Ledger::open_lists(heap, &[1, 1, 2, 1], &rules, &queries)
}

// The same rule and queries as values.
fn values(heap: Global) -> Result<(Vec<Rule>, Vec<Query>), Failure<LineFault>> {
    let arity = &[1, 1, 2, 1];
    let body = Body::new(arity, &atoms(heap, b"p0(v0)")?)?;
    let mut rule = Rule::new(body, arity, &atoms(heap, b"p1(v0)")?)?;
    rule.add(arity, &atoms(heap, b"p2(v0,v1)")?)?;
    let mut rules = Vec::new(heap);
    rules.push(rule)?;
    let mut queries = Vec::new(heap);
    queries.push(Query::new(arity, &atoms(heap, b"p1(v0);p3(v0)")?)?)?;
    queries.push(Query::new(arity, &atoms(heap, b"p2(v0,v1)")?)?)?;
    queries.push(Query::new(arity, &atoms(heap, b"p2(v0,v1);p3(v0)")?)?)?;
    Ok((rules, queries))
}

// The part that takes the first atom of a query for the first of a head.
fn part(heap: Global, query: usize, ties: Vec<Tie>) -> Result<Part, Failure<LineFault>> {
    Ok(Part {
        query,
        taken: places(heap, b"0")?,
        named: places(heap, b"0")?,
        ties,
    })
}

// Query 0 for the first head, with these ties, and query 1 for the second.
fn step(heap: Global, first: Vec<Tie>) -> Result<Call, Failure<LineFault>> {
    let mut second = Vec::new(heap);
    second.push(whole_tie(b"q0~r0")?)?;
    second.push(whole_tie(b"q1~r1")?)?;
    let mut parts = Vec::new(heap);
    parts.push(part(heap, 0, first)?)?;
    parts.push(part(heap, 1, second)?)?;
    Ok(Call::Step(Step { rule: 0, parts }))
}

// The tie of the copy's first variable and the rule's, as often as this.
fn ties(heap: Global, many: usize) -> Result<Vec<Tie>, Failure<LineFault>> {
    let tie = whole_tie(b"q0~r0")?;
    Ok(vec![in heap; tie; many]?)
}

fn calls(heap: Global) -> Result<Vec<Call>, Failure<LineFault>> {
    let mut other = ties(heap, 1)?;
    other.push(whole_tie(b"r0~c7")?)?;
    let mut calls = Vec::new(heap);
    calls.push(Call::Strike(2, 1))?;
    calls.push(Call::Strike(1, 2))?;
    calls.push(Call::Strike(1, 1))?;
    calls.push(step(heap, ties(heap, 0)?)?)?;
    calls.push(step(heap, other)?)?;
    calls.push(step(heap, ties(heap, MOST_TIES + 1)?)?)?;
    calls.push(step(heap, ties(heap, MOST_TIES)?)?)?;
    calls.push(Call::Strike(1, 0))?;
    calls.push(Call::Rules)?;
    calls.push(Call::Standing)?;
    calls.push(Call::Opening)?;
    Ok(calls)
}

fn print(rt: &HostRuntime, answer: Answer) -> io::Result<()> {
    match answer {
        Answer::Entered(number) => println!(rt; "entered={number}"),
        Answer::Struck(number) => println!(rt; "struck={number}"),
        Answer::StepRefused(refusal) => {
            let (number, place) = refusal.number();
            println!(rt; "refused={number},{place}")
        }
        Answer::StrikeRefused(refusal) => {
            let (number, place) = refusal.number();
            println!(rt; "refused={number},{place}")
        }
        Answer::Found(Some(number)) => println!(rt; "found={number}"),
        Answer::Found(None) => println!(rt; "found=none"),
    }
}

fn main(rt: HostRuntime) -> io::Result<()> {
    let heap = rt.alloc();
    let source = TextSource::new(heap, FACTS)?;
    let (Ok(mut ledger), Ok(calls), Ok((rules, queries))) = (
        opened(heap),
        calls(heap),
        values(heap),
    ) else {
        return Err(io::Error::from(io::ErrorKind::OutOfMemory));
    };
    for call in &calls {
        print(&rt, ledger.carry(call, &Plain { source: &source }))?;
    }
    let Ok(ran) = run(heap, &rules, &queries, &calls, &source) else {
        return Err(io::Error::from(io::ErrorKind::OutOfMemory));
    };
    for answer in &ran.answers {
        print(&rt, *answer)?;
    }
    Ok(())
}
