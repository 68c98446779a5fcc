// The listing of a trace.
#![tactic(auto)]

pub mod bus;
mod lines;
pub mod replay;
pub mod session;
pub mod setup;
pub mod trace_memory;
pub mod whole;
