// The fabric: boards with private copies of lines, over any slot schedule and any line memory.
#![tactic(auto)]

pub mod answer;
pub mod board;
mod boards;
pub mod fabric;
pub mod fabric_core;
mod index;
pub mod queue;
