// The ledger: rules, an opening union of queries, and what stands of it.
#![tactic(auto)]

pub mod answer;
pub mod call;
mod counts;
pub mod ledger;
pub mod lists;
pub mod ran;
pub mod refusal;
pub mod table;
