// A row of at most sixteen indices, oldest first.
ghost use Rattle.std.specs.Prelude.{◌≤◌};

use crate::index::Index;

mod ops;

// An array with its length, since a queue is `Copy`, as the boards that hold one are, and `ArrayVec` is not.
#[derive(Clone, Copy)]
pub struct Queue<const N: usize> {
    items: [Index<N>; 16],
    len: usize,
    ghost fits: { len ≤ 16 },
}
