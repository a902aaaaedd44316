// Carrying out calls, one after the other.
ghost use Rattle.std.specs.Prelude.{map, OnOk};
ghost use Rattle.queries.specs.Queries.{atoms_of};
ghost use Rattle.queries.specs.Rules.{rule_of};
ghost use Rattle.book.specs.Ledgers.{book_of};
ghost use Rattle.book.specs.LawOfRuns.{Carries, CarriesAll, RunsTo};
ghost use Rattle.book.specs.Views.{call_of};

use super::Ledger;
use crate::answer::Answer;
use crate::call::Call;
use crate::ran::Ran;
use index::index::Index;
use notation::failures::Failure;
use notation::faults::FolderFault;
use queries::query::Query;
use queries::rule::Rule;
use search::guide::{Guide, Plain};
use sources::Source;
use std::alloc::{AllocError, Global};

impl Ledger {
    // Carries out a call; a question is put to the list of `s`.
    pub fn carry<G: Guide>(&mut self, call: &Call, s: &G) -> Answer
        ensures { Carries (book_of self.old) (call_of (G.Source.facts s.now) call.now) result (book_of self.new) }
    {
        match call {
            Call::Step(step) => match self.step(step) {
                Ok(number) => Answer::Entered(number),
                Err(refusal) => Answer::StepRefused(refusal),
            },
            Call::Strike(struck, by) => match self.strike(*struck, *by) {
                Ok(()) => Answer::Struck(*struck),
                Err(refusal) => Answer::StrikeRefused(refusal),
            },
            Call::Standing => Answer::Found(self.standing(s)),
            Call::Opening => Answer::Found(self.opening(s)),
            Call::Rules => Answer::Found(self.broken(s)),
        }
    }

    // Carries out the calls, and puts what each answers after the answers that there are.
    fn carry_all<G: Guide>(
        &mut self,
        calls: &[Call],
        s: &G,
        answers: &mut Vec<Answer>,
    ) -> Result<(), AllocError>
        ensures { OnOk result (CarriesAll (book_of self.old) (map (call_of (G.Source.facts s.now)) calls.now) answers.old.items answers.new.items (book_of self.new)) }
    {
        for call in calls {
            answers.push(self.carry(call, s))?;
        }
        Ok(())
    }
}

// Opens a ledger with these rules and these queries, and carries out the calls; questions are put to the list of `source`.
pub fn run<S: Source>(
    heap: Global,
    rules: &[Rule],
    queries: &[Query],
    calls: &[Call],
    source: &S,
) -> Result<Ran, Failure<FolderFault>>
    ensures { RunsTo (map rule_of rules.now) (map atoms_of queries.now) calls.now (S.Source.facts source.now) result }
{
    let mut ledger = Ledger::open(heap, rules, queries)?;
    let mut answers = Vec::new(heap);
    match Index::build(heap, source) {
        Ok(indexed) => ledger.carry_all(calls, &indexed, &mut answers)?,
        Err(_) => ledger.carry_all(calls, &Plain { source }, &mut answers)?,
    }
    Ok(Ran { ledger, answers })
}
