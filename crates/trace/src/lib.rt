// The lines of a trace, taken apart.
#![tactic(auto)]

pub mod command;
pub mod fault;
pub mod number;
pub mod opening;
pub mod text;
pub mod word;
