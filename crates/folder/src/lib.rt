// A folder's text: its lines, and what is printed for it.
#![tactic(auto)]

pub mod buffer;
mod contents;
pub mod parts;
mod printing;
pub mod printout;
pub mod reader;
