// A trace, replayed line by line after its first lines.
ghost use Rattle.std.specs.Prelude.{◌+◌, ◌*◌, ◌≤◌, length};
ghost use Rattle.std.specs.Option.{option_map_or};

use crate::session::Session;

pub mod calls;

// The bounds hold since each line takes a byte at least, and runs at most 65,535 slots.
#[derive(Drop)]
pub struct Replay<'a, S, M> {
    // What is still to read, until the listing ends.
    rest: Option<&'a [u8]>,
    line: u32,
    session: Session<S, M>,
    ghost lines: { line + option_map_or (λ r. length r.now) rest 0 ≤ 32771 },
    ghost slots: { session.slot + 65535 * option_map_or (λ r. length r.now) rest 0 ≤ 65535 * 32768 },
}
