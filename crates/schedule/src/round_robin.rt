// Round robin: the boards in turn.
ghost use Rattle.std.specs.Prelude.{◌≤◌};

pub mod calls;

use crate::ring::Ring;

// A ring of the boards.
#[derive(Clone, Copy)]
pub struct RoundRobin {
    ring: Ring,
    ghost few: { ring.len ≤ 16 },
}
