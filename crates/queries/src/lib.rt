// Conjunctive queries, and rules.
#![tactic(auto)]

pub mod atoms;
pub mod body;
pub mod checks;
pub mod head;
pub mod laws;
pub mod printing;
pub mod query;
pub mod row;
pub mod rule;
