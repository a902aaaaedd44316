// The law of the ledger, after every list of calls.
#![tactic(auto)]

ghost use Rattle.laws.specs.Law.{LawHolds};
ghost use Rattle.laws.specs.Offerable.{DerivationsCanBeOffered, StepsAreOffered, DerivationHolds};
ghost use Rattle.laws.specs.Runs.{CallsDo, RunsDo};
ghost use Rattle.laws.specs.Wrong.{WrongLedgersBreak};

// Whatever a ledger was opened with, the law holds after every list of calls.
pub fn runs_keep_the_law()
    ensures { LawHolds }
{}

// Each call, and each list of calls, does one thing: what comes of computing.
pub fn calls_do_one_thing()
    ensures calls { CallsDo }
    ensures runs { RunsDo }
{}

// Every published derivation has steps that offer it, to its end or to one that does not fit.
pub fn derivations_can_be_offered()
    ensures { DerivationsCanBeOffered }
{}

// Steps that all enter a query are a published derivation, and offer it.
pub fn entered_steps_are_derivations()
    ensures { StepsAreOffered }
{}

// A derivation of two families is offered by two steps, and entered.
pub fn a_worked_derivation_is_entered()
    ensures { DerivationHolds }
{}

// Ledgers that go wrong break the law.
pub fn wrong_ledgers_break_the_law()
    ensures { WrongLedgersBreak }
{}
