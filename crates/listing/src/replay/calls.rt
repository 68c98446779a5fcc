// The calls of a replay.
ghost use Rattle.std.specs.Prelude.{◌≡◌, ◌<◌, ◌≤◌, true, false, [], ◌++◌, length, drop, Some, None, IfOk, string_bytes, OnOk, OnErr};
ghost use Rattle.std.specs.Option.{option_map, option_map_or};
ghost use Rattle.trace.specs.Pieces.{pieces};
ghost use Rattle.listing.specs.Beginnings.{stand_from};
ghost use Rattle.listing.specs.Listing.{ending, listed};
ghost use Rattle.listing.specs.Replays.{coming, piece, unread};

use crate::replay::Replay;
use crate::session::Session;
use crate::setup::Setup;
use crate::setup::reading::{MAX_TRACE, stop};
use memory::interface::LineMemory;
use schedule::Schedule;
use std::alloc::{AllocError, Global};
use trace::fault::{LineFault, TraceFault};
use trace::text::cut;

// What follows the first `used` bytes of a trace that is not too long.
fn rest_of(trace: &[u8], used: usize) -> Option<&[u8]>
    ensures rest { length trace.now ≤ 32768 → option_map (λ r. r.now) result ≡ Some (drop used trace.now) }
    ensures long { 32768 < length trace.now → result ≡ None }
    ensures short { option_map_or (λ r. length r.now) result 0 ≤ 32768 }
{
    if trace.len() > MAX_TRACE {
        return None;
    }
    Some(trace.get(used..).unwrap_or(&[]))
}

// What follows the last line end.
fn write_end(line: u32, last: &[u8], out: &mut String) -> Result<(), AllocError>
    ensures { OnOk result (string_bytes out.new ≡ string_bytes out.old ++ ending line last.now) }
{
    if last.is_empty() {
        return Ok(());
    }
    stop(line, TraceFault::Line(LineFault::NoLineEnd), out)
}

impl<'a, S: Schedule, M: LineMemory> Replay<'a, S, M> {
    // A replay on a fresh fabric of what follows the lines that were read for its setup. A trace that is too long has nothing to print.
    pub fn new(trace: &'a [u8], setup: &Setup, schedule: S, memory: M) -> Replay<'a, S, M>
        ensures lists { length trace.now ≤ 32768 → coming S.Schedule M.LineMemory result ≡ listed setup.now.line (stand_from (M.LineMemory.words memory) (M.LineMemory.size memory) (S.Schedule.owners schedule) (S.Schedule.count schedule) (S.Schedule.span schedule)) (pieces 10 (drop setup.now.used trace.now)) }
        ensures long { 32768 < length trace.now → coming S.Schedule M.LineMemory result ≡ [] }
    {
        Replay {
            rest: rest_of(trace, setup.used()),
            line: setup.line(),
            session: Session::new(schedule, memory),
        }
    }

    // Adds to the text what the next line of the trace prints; true where there may be more. After want of memory there is nothing more to print.
    pub fn step(&mut self, alloc: Global, out: &mut String) -> Result<bool, AllocError>
        ensures text { OnOk result (string_bytes out.new ≡ string_bytes out.old ++ piece S.Schedule M.LineMemory self.old) }
        ensures rest { OnOk result (coming S.Schedule M.LineMemory self.old ≡ piece S.Schedule M.LineMemory self.old ++ coming S.Schedule M.LineMemory self.new) }
        ensures over { IfOk result (λ more. (more ≡ false → coming S.Schedule M.LineMemory self.new ≡ [])) }
        ensures less { IfOk result (λ more. (more ≡ true → unread self.new < unread self.old)) }
        ensures stops { OnErr result (coming S.Schedule M.LineMemory self.new ≡ []) }
    {
        let Some(rest) = self.rest else {
            return Ok(false);
        };
        let (line, after) = cut(rest, b'\n');
        self.rest = after;
        let Some(_) = after else {
            write_end(self.line, line, out)?;
            return Ok(false);
        };
        let number = self.line;
        self.line = number + 1;
        match self.session.obey(alloc, line, out) {
            Ok(()) => Ok(true),
            Err(fault) => {
                self.rest = None;
                stop(number, fault, out)?;
                Ok(false)
            }
        }
    }

    // All that is still to print, added to the text.
    pub fn finish(&mut self, alloc: Global, out: &mut String) -> Result<(), AllocError>
        ensures text { OnOk result (string_bytes out.new ≡ string_bytes out.old ++ coming S.Schedule M.LineMemory self.old) }
        ensures over { OnOk result (coming S.Schedule M.LineMemory self.new ≡ []) }
        ensures stops { OnErr result (coming S.Schedule M.LineMemory self.new ≡ []) }
    {
        while self.step(alloc, out)? {}
        Ok(())
    }
}
