// The words of the fabric: what boards ask for, what a slot does, why a call is rejected.
#![tactic(auto)]

pub mod deed;
pub mod kind;
pub mod refusal;
