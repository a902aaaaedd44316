// What the calls of a ledger answer.
use crate::refusal::Refusal;
use rewriting::refusal::StepRefusal;

#[derive(Clone, Copy, PartialEq, Eq)]
pub enum Answer {
    // the number of the query that a step entered
    Entered(usize),
    StepRefused(StepRefusal),
    // the number of the query that was struck
    Struck(usize),
    StrikeRefused(Refusal),
    // the number that a question gives, or none
    Found(Option<usize>),
}
