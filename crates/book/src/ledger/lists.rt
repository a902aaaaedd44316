// Opening a ledger from bare lists.
ghost use Rattle.std.specs.Prelude.{◌≡◌, ◌++◌, map, Ok, vec_items};
ghost use Rattle.notation.specs.Failures.{UnlessMemory};
ghost use Rattle.notation.specs.Reading.{carry};
ghost use Rattle.queries.specs.Checks.{check_atoms};
ghost use Rattle.queries.specs.Heads.{body_atoms, body_seen};
ghost use Rattle.queries.specs.Queries.{atoms_of, query_seen};
ghost use Rattle.queries.specs.Rules.{heads_of, rule_of, rule_seen};
ghost use Rattle.book.specs.Ledgers.{book_of};
ghost use Rattle.book.specs.Opening.{rule_lists, counts_fit, check_arity, room, check_heads, check_rule, check_rules, check_queries, open_lists};

use super::Ledger;
use crate::counts::{MOST_QUERIES, MOST_RULES};
use crate::lists::RuleAtoms;
use notation::failures::Failure;
use notation::faults::{FolderFault, LineFault};
use notation::terms::{Atom, Term};
use queries::body::Body;
use queries::checks::too_many;
use queries::query::Query;
use queries::rule::Rule;
use std::alloc::Global;

// Each number of terms is 1 to 4.
fn counts_fit(arity: &[u8]) -> bool
    ensures { result ≡ counts_fit arity.now }
{
    arity.iter().all(|n| (1..=4).contains(n))
}

// There are 1 to 32 numbers of terms.
fn check_arity(arity: &[u8]) -> Result<(), LineFault>
    ensures { result ≡ check_arity arity.now }
{
    if arity.is_empty() || !counts_fit(arity) {
        return Err(LineFault::Unreadable);
    }
    if arity.len() > 32 {
        return Err(LineFault::TooMany);
    }
    Ok(())
}

// The body of a rule that comes after n others.
fn body(arity: &[u8], n: usize, atoms: &[Atom<Term>]) -> Result<Body, LineFault>
    ensures { body_seen result ≡ carry (λ e. e) (check_atoms (room 32 n 8) 0 0 0 arity.now atoms.now) (λ _. Ok atoms.now) }
{
    if n >= MOST_RULES {
        return Err(too_many(atoms));
    }
    Body::new(arity, atoms)
}

// The rule with these heads after its own.
fn with_heads(arity: &[u8], mut rule: Rule, heads: &[Vec<Atom<Term>>]) -> Result<Rule, LineFault>
    ensures { rule_seen result ≡ carry (λ e. e) (check_heads arity.now (body_atoms rule.body) (heads_of rule) (map vec_items heads.now)) (λ _. Ok (body_atoms rule.body, heads_of rule ++ map vec_items heads.now)) }
{
    for head in heads {
        rule.add(arity, head)?;
    }
    Ok(rule)
}

// The rule of these lists, after n others.
fn rule(arity: &[u8], n: usize, lists: &RuleAtoms) -> Result<Rule, FolderFault>
    ensures { rule_seen result ≡ carry (λ e. e) (check_rule arity.now n (rule_lists lists.now)) (λ _. Ok (rule_lists lists.now)) }
{
    let body = body(arity, n, &lists.body)?;
    let [first, others @ ..] = lists.heads.as_slice() else {
        return Err(FolderFault::OutOfOrder);
    };
    let begun = Rule::new(body, arity, first)?;
    let whole = with_heads(arity, begun, others)?;
    Ok(whole)
}

// The rules of these lists.
fn rules(heap: Global, arity: &[u8], lists: &[RuleAtoms]) -> Result<Vec<Rule>, Failure<FolderFault>>
    ensures { UnlessMemory (λ v. map rule_of v.items) result (carry (λ e. e) (check_rules arity.now 0 (map rule_lists lists.now)) (λ _. Ok (map rule_lists lists.now))) }
{
    let mut held = Vec::new(heap);
    for (i, r) in lists.iter().enumerate() {
        held.push(rule(arity, i, r)?)?;
    }
    Ok(held)
}

// The query of these atoms, after n others.
fn query(arity: &[u8], n: usize, atoms: &[Atom<Term>]) -> Result<Query, LineFault>
    ensures { query_seen result ≡ carry (λ e. e) (check_atoms (room 64 n 16) 0 0 0 arity.now atoms.now) (λ _. Ok atoms.now) }
{
    if n >= MOST_QUERIES {
        return Err(too_many(atoms));
    }
    Query::new(arity, atoms)
}

// The queries of these lists. One function for these and the rules is no plainer: its closure needs a clause of its own.
fn queries(
    heap: Global,
    arity: &[u8],
    lists: &[Vec<Atom<Term>>],
) -> Result<Vec<Query>, Failure<LineFault>>
    ensures { UnlessMemory (λ v. map atoms_of v.items) result (carry (λ e. e) (check_queries arity.now 0 (map vec_items lists.now)) (λ _. Ok (map vec_items lists.now))) }
{
    let mut held = Vec::new(heap);
    for (i, q) in lists.iter().enumerate() {
        held.push(query(arity, i, q)?)?;
    }
    Ok(held)
}

impl Ledger {
    // The ledger that these lists open, as the lines of a folder would: the numbers of terms of p0, p1 and so on, rules,
    // and queries.
    pub fn open_lists(
        heap: Global,
        arity: &[u8],
        rules: &[RuleAtoms],
        queries: &[Vec<Atom<Term>>],
    ) -> Result<Ledger, Failure<FolderFault>>
        ensures { UnlessMemory book_of result (open_lists arity.now (map rule_lists rules.now) (map vec_items queries.now)) }
    {
        check_arity(arity)?;
        let made_rules = self::rules(heap, arity, rules)?;
        if queries.is_empty() {
            return Err(Failure::Fault(FolderFault::EndsTooSoon));
        }
        let made_queries = self::queries(heap, arity, queries)?;
        let ledger = Ledger::of_parts(heap, made_rules, &made_queries)?;
        Ok(ledger)
    }
}
