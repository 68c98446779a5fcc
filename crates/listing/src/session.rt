// A fabric under a trace, and the number of its next slot.
use fabric::fabric::Fabric;

pub(crate) mod calls;

#[derive(Drop)]
pub struct Session<S, M> {
    fabric: Fabric<S, M>,
    slot: u64,
}
