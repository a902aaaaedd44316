// Steps: classes of ties, right steps, and the new query that a step makes.
#![tactic(auto)]

mod classes;
mod draft;
pub mod judge;
pub mod laws;
mod meeting;
mod numbers;
mod pieces;
mod piecewise;
mod places;
mod proposals;
mod reading;
pub mod refusal;
mod rows;
pub mod steps;
mod terms;
mod unnamed;
