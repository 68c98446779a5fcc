// Line memories: up to 64 lines of one word each, behind one interface.
#![tactic(auto)]

pub mod flat;
pub mod interface;
pub mod window;
