// All that a fabric holds but its schedule.
ghost use Rattle.std.specs.Prelude.{◌≤◌};

use crate::board::Board;
use crate::index::BoardIndex;
use crate::queue::Queue;

mod conditions;
mod leaves;
mod made;
mod parts;
mod replies;
pub(crate) mod slot;

// The boards that wait for a line, and its key: 0 is open, as the rules number keys.
#[derive(Clone, Copy)]
pub(crate) struct Line {
    row: Queue<16>,
    key: u16,
}

// The owner of a slot, and how many boards there are.
#[derive(Clone, Copy)]
pub(crate) struct Turn {
    pub(crate) count: usize,
    pub(crate) owner: BoardIndex,
    ghost few: { count ≤ 16 },
}

// Fixed tables, since making a fabric may not fail: at most 16 boards and 64 lines.
#[derive(Drop)]
pub struct Core<M> {
    boards: [Board; 16],
    lines: [Line; 64],
    memory: M,
}
