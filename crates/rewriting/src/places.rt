// The terms of a step, and their places in a table of classes: 1,000 constants, 32 variables of the rule, 32 of each of four
// copies.
ghost use Rattle.std.specs.Prelude.{◌≡◌, ◌<◌};
ghost use Rattle.notation.specs.Logic.{as_term};
ghost use Rattle.rewriting.specs.Steps.{end};
ghost use Rattle.rewriting.specs.Tables.{place as place_in_table, Within, Within-prop};
ghost use Rattle.rewriting.specs.Written.{ref_of, end_of, step_ref};

use crate::steps::Owner;
use notation::terms::{End, Term};

pub const TERMS: usize = 1160;

pub(crate) const RULE: usize = 1000;

pub(crate) const COPIES: usize = 1032;

pub(crate) const VARIABLES: usize = 32;

// A term of a step: all parts have the constants and the rule's variables in common, and each has the variables of its own
// copy of its query.
#[derive(Clone, Copy, PartialEq, Eq)]
pub enum StepTerm {
    Constant(u16),
    Rule(u8),
    Copy(usize, u8),
}

impl StepTerm {
    // A term of the owner's.
    pub(crate) fn of(owner: Owner, t: Term) -> StepTerm
        ensures { step_ref result ≡ ref_of owner (as_term t) }
    {
        match (owner, t) {
            (_, Term::Constant(k)) => StepTerm::Constant(k),
            (Owner::Rule, Term::Variable(k)) => StepTerm::Rule(k),
            (Owner::Part(i), Term::Variable(k)) => StepTerm::Copy(i, k),
        }
    }

    // The end of a tie of part i.
    pub(crate) fn of_end(i: usize, e: End) -> StepTerm
        ensures { step_ref result ≡ end i (end_of e) }
    {
        match e {
            End::Constant(k) => StepTerm::Constant(k),
            End::Rule(k) => StepTerm::Rule(k),
            End::Copy(k) => StepTerm::Copy(i, k),
        }
    }
}

// A term that has a place: its number is one of those that there are.
#[derive(Clone, Copy)]
pub struct Placed {
    pub(crate) term: StepTerm,
    ghost within: { Within (step_ref term) } by { Within-prop (step_ref term) },
}

impl Placed {
    pub(crate) fn place(self) -> usize
        ensures value { result ≡ place_in_table (step_ref self.term) }
        ensures inside { result < 1160 }
    {
        match self.term {
            StepTerm::Constant(k) => k as usize,
            StepTerm::Rule(k) => RULE + k as usize,
            StepTerm::Copy(i, k) => COPIES + VARIABLES * i + k as usize,
        }
    }
}
