// What a run leaves.
use crate::answer::Answer;
use crate::ledger::Ledger;

// The ledger after the calls, and the answer of each.
#[derive(Drop)]
pub struct Ran {
    pub ledger: Ledger,
    pub answers: Vec<Answer>,
}
