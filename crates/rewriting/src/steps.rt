// Steps as they are proposed.

use notation::terms::Tie;

// For one head: the number of a query, the numbers of the atoms taken from it, those of the head atoms that they meet, and
// ties.
#[derive(Drop)]
pub struct Part {
    pub query: usize,
    pub taken: Vec<usize>,
    pub named: Vec<usize>,
    pub ties: Vec<Tie>,
}

// The number of a rule, and one part for each of its heads.
#[derive(Drop)]
pub struct Step {
    pub rule: usize,
    pub parts: Vec<Part>,
}

// Whose variables are meant: the rule's, or those of the copy that belongs to the part with this number.
#[derive(Clone, Copy)]
pub enum Owner {
    Rule,
    Part(usize),
}
