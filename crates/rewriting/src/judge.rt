// A step judged on the rules and the rows.
ghost use Rattle.std.specs.Prelude.{◌≡◌, ℕ, true, List, length, OnOk};
ghost use Rattle.notation.specs.Logic.{Atom as LogicAtom, Term as LogicTerm};
ghost use Rattle.rewriting.specs.Classes.{class_name};
ghost use Rattle.rewriting.specs.Judging.{Ledger, pieces, judge as judge_in, tested as tested_in, ends, failing, sets_meet as sets_meet_in, unnamed_right as unnamed_right_in, standing};
ghost use Rattle.rewriting.specs.Proposals.{rule_of, parts_of, ties_of, pieces_of};
ghost use Rattle.rewriting.specs.Steps.{Ref, Ties, nth};
ghost use Rattle.rewriting.specs.Tables.{Names, TiesWithin};
ghost use Rattle.rewriting.specs.Written.{all_valid, row_standing, option_list, ReadTo, Shows, step_of, outcome_of};

use crate::classes::Classes;
use crate::proposals::Proposal;
use crate::refusal::StepRefusal;
use crate::steps::Step;
use queries::query::Query;
use queries::row::Row;
use queries::rule::Rule;

// How many queries are ever entered.
const MOST_QUERIES: usize = 64;

impl<'a> Proposal<'a> {
    // Reads the parts one by one.
    fn read(&self) -> Result<(), StepRefusal>
        ensures read { (s : Ledger) (b : List (LogicAtom LogicTerm))
            → ((k : ℕ) → standing s k ≡ row_standing (nth k self.now.rows.now))
            → ReadTo result (pieces s b 0 (rule_of self.now).heads (parts_of self.now)) (pieces_of b self.now) }
        ensures ties { OnOk result (TiesWithin (ties_of self.now)) }
    {
        for piece in self.pieces() {
            piece.read(self.rows)?;
        }
        Ok(())
    }

    // The first head for which the taken and the named atoms do not become the same set.
    // Apart from the next: of a closure that is called at a piece, which holds references, a proof knows no result.
    fn first_differing(&self, classes: Classes) -> Option<usize>
        ensures { (f : Ref → Ref) (b : List (LogicAtom LogicTerm)) → Names classes.names f
            → option_list result ≡ failing (sets_meet_in f) 0 (pieces_of b self.now) }
    {
        for piece in self.pieces() {
            if !piece.sets_meet(classes) {
                return Some(piece.number);
            }
        }
        None
    }

    // The first head with an unnamed variable whose class holds what it may not.
    fn first_joined(&self, classes: Classes) -> Option<usize>
        ensures { (ts : Ties) → TiesWithin ts → Names classes.names (class_name ts)
            → option_list result
            ≡ failing (unnamed_right_in (class_name ts) (ends ts)) 0 (pieces_of (rule_of self.now).body self.now) }
    {
        let body = self.rule.body();
        for piece in self.pieces() {
            if !piece.unnamed_right(classes, body) {
                return Some(piece.number);
            }
        }
        None
    }

    // Parts that were read: the classes, the three conditions, the new query and the limits.
    fn tested(&self) -> Result<Query, StepRefusal>
        requires { TiesWithin (ties_of self.now) }
        ensures { (s : Ledger) → length s.entered ≡ length self.now.rows.now
            → outcome_of result
            ≡ tested_in s (rule_of self.now).body (pieces_of (rule_of self.now).body self.now) }
    {
        let classes = Classes::of(self.parts);
        if !classes.constants_apart() {
            return Err(StepRefusal::TwoConstants);
        }
        if let Some(head) = self.first_differing(classes) {
            return Err(StepRefusal::SetsDiffer(head));
        }
        if let Some(head) = self.first_joined(classes) {
            return Err(StepRefusal::UnnamedJoined(head));
        }
        let Some(new) = self.draft(&classes) else {
            return Err(StepRefusal::TooLarge);
        };
        if self.rows.len() >= MOST_QUERIES {
            return Err(StepRefusal::Full);
        }
        Ok(new.finish())
    }
}

// The one outcome of a step on the rules and the rows: the new query that it enters, or the refusal.
pub fn judge(rules: &[Rule], rows: &[Row], step: &Step) -> Result<Query, StepRefusal>
    requires { all_valid rows.now ≡ true }
    ensures { (s : Ledger) → Shows rules.now rows.now s
        → outcome_of result ≡ judge_in s (step_of step.now) }
{
    let Some(rule) = rules.get(step.rule) else {
        return Err(StepRefusal::NoRule);
    };
    let parts = step.parts.as_slice();
    if rule.heads().len() != parts.len() {
        return Err(StepRefusal::NoRule);
    }
    let proposal = Proposal { rule, rows, parts };
    proposal.read()?;
    proposal.tested()
}
