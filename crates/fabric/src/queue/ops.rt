// What a queue does.
ghost use Rattle.std.specs.Prelude.{◌≡◌, ◌<◌, [], drop};
ghost use Rattle.std.specs.Option.{option_map};
ghost use Rattle.rules.specs.Boards.{pushed};
ghost use Rattle.rules.specs.Cells.{is_empty, is_first};
ghost use Rattle.rules.specs.Slots.{first_of};
ghost use Rattle.fabric.specs.Queues.{place, row};

use crate::index::Index;
use crate::queue::Queue;

impl<const N: usize> Queue<N> {
    // Nothing in it; its room may hold any index.
    pub(crate) fn new() -> Queue<N>
        requires { 0 < N }
        ensures { row result ≡ [] }
    {
        Queue {
            items: [Index { at: 0 }; 16],
            len: 0,
        }
    }

    // One index more at the end, where there is room.
    pub(crate) fn push(&mut self, x: Index<N>)
        ensures { row self.new ≡ pushed (row self.old) x.entry.at }
    {
        if self.len < 16 {
            self.items[self.len] = x;
            self.len += 1;
        }
    }

    // Takes the oldest out.
    pub(crate) fn pop(&mut self) -> Option<Index<N>>
        ensures value { option_map (λ x. x.at) result ≡ first_of (row self.old) }
        ensures rest { row self.new ≡ drop 1 (row self.old) }
    {
        if self.len == 0 {
            return None;
        }
        let oldest = self.items[0];
        self.items.rotate_left(1);
        self.len -= 1;
        Some(oldest)
    }

    pub(crate) fn is_empty(&self) -> bool
        ensures { result ≡ is_empty (row self.now) }
    {
        self.len == 0
    }

    // Whether x is the oldest.
    pub(crate) fn is_first(&self, x: Index<N>) -> bool
        ensures { result ≡ is_first x.entry.at (row self.now) }
    {
        self.len > 0 && self.items[0] == x
    }

    // The number at a place, oldest first, or none past the end.
    pub(crate) fn get(&self, at: usize) -> Option<usize>
        ensures { result ≡ place (row self.now) at }
    {
        // Not by the slice's own `get`: with it the proof did not close.
        if at < self.len {
            Some(self.items[at].at as usize)
        } else {
            None
        }
    }
}
