// A slot list: 1 to 64 entries that repeat.
ghost use Rattle.std.specs.Prelude.{◌≡◌, ◌≤◌, false, length, take, is_some};
ghost use Rattle.schedule.specs.Lists.{list_refusal};

pub mod calls;
pub mod scan;

use crate::ring::Ring;

// The entries at the front, as many as the ring has places: an array and not a Vec, since there is no heap, making a list may
// not fail, and the type is Copy. No list exists that would be refused, so each names all of its boards.
#[derive(Clone, Copy)]
pub struct SlotList {
    entries: [u8; 64],
    ring: Ring,
    boards: usize,
    ghost sized: { length entries ≡ 64 },
    ghost short: { ring.len ≤ 64 },
    ghost accepted: { is_some (list_refusal boards (take ring.len entries)) ≡ false },
}
