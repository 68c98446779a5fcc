// What the first lines of a trace set up: a schedule, a line count and a kind of memory.
ghost use Rattle.std.specs.Prelude.{◌≤◌};

use crate::bus::BusSchedule;
use trace::word::MemoryKind;

pub mod reading;

// The setup, how many bytes of the trace it took, and the number of the next line. A count of bytes and not the rest of the trace, for a replay goes on in any trace that it is given.
#[derive(Clone, Copy)]
pub struct Setup {
    schedule: BusSchedule,
    lines: usize,
    kind: MemoryKind,
    used: usize,
    line: u32,
    ghost few: { lines ≤ 64 },
    ghost early: { line ≤ 3 },
}
