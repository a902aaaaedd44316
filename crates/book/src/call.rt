// The calls of a ledger.
use rewriting::steps::Step;

#[derive(Drop)]
pub enum Call {
    // enters the new query of a step
    Step(Step),
    // strikes the first query by the second
    Strike(usize, usize),
    // the lowest standing query that holds
    Standing,
    // the lowest opening query that holds
    Opening,
    // the lowest rule that is not kept
    Rules,
}
