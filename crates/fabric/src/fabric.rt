// A fabric over any schedule and any memory.
use crate::fabric_core::Core;

pub mod calls;
mod found;
pub mod questions;

#[derive(Drop)]
pub struct Fabric<S, M> {
    schedule: S,
    core: Core<M>,
}
