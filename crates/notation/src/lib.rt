// Terms, atoms and facts: how they are written and read, and what can be wrong with a text.
#![tactic(auto)]

pub mod failures;
pub mod faults;
pub mod freezing;
pub mod grades;
pub mod laws;
pub mod lines;
pub mod lists;
pub mod numbers;
pub mod printing;
pub mod terms;
pub mod ties;
pub mod words;
