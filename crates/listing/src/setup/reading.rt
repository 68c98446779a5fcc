// The first line makes the fabric, and the second may give it a slot list.
ghost use Rattle.std.specs.Prelude.{◌≡◌, ◌+◌, ◌≤◌, length, IfOk, slice_index, string_bytes, OnOk};
ghost use Rattle.memory.specs.Interface.{upto};
ghost use Rattle.trace.specs.Commands.{fabric_order, list_order};
ghost use Rattle.trace.specs.Faults.{Told};
ghost use Rattle.listing.specs.Beginnings.{Begun, FromSecond, Opened};
ghost use Rattle.listing.specs.Lines.{line_text};
ghost use Rattle.listing.specs.Listing.{list_settled, settled, unopened};
ghost use Rattle.listing.specs.Memories.{memory_size, memory_words, start_of};
ghost use Rattle.listing.specs.Sessions.{Stopped};
ghost use Rattle.listing.specs.Setups.{Listed, Relisted, Turned, setting_of};

use crate::bus::BusSchedule;
use crate::lines::Line;
use crate::setup::Setup;
use crate::trace_memory::TraceMemory;
use schedule::Schedule;
use schedule::round_robin::RoundRobin;
use schedule::slot_list::SlotList;
use std::alloc::{AllocError, Global};
use std::fmt::Write;
use trace::command::{read_fabric, read_list};
use trace::fault::{LineFault, TraceFault};
use trace::text::cut;
use trace::word::MemoryKind;

// The longest trace.
pub const MAX_TRACE: usize = 32768;

fn round_robin(boards: u8) -> Result<RoundRobin, LineFault>
    ensures { Turned boards result }
{
    Ok(RoundRobin::new(boards as usize)?)
}

fn slot_list(boards: usize, entries: &[u8]) -> Result<SlotList, LineFault>
    ensures { Listed boards entries.now result }
{
    let mut list = SlotList::board_zero();
    list.replace(boards, entries)?;
    Ok(list)
}

// The first line makes the fabric, with a round robin, and the second is still to be read.
fn open(alloc: Global, line: &[u8]) -> Result<Setup, TraceFault>
    ensures value { Told setting_of result (settled (fabric_order line.now)) }
    ensures stands { IfOk result (λ s. Opened s × (s.used ≡ length line.now + 1)) }
{
    let asked = read_fabric(alloc, line)?;
    let round = round_robin(asked.boards)?;
    Ok(Setup {
        schedule: BusSchedule::InTurn(round),
        lines: asked.lines as usize,
        kind: asked.kind,
        used: line.len() + 1,
        line: 2,
    })
}

fn relist(alloc: Global, boards: usize, line: &[u8]) -> Result<Option<SlotList>, TraceFault>
    ensures { Relisted boards result (list_settled boards (list_order line.now)) }
{
    let Some(entries) = read_list(alloc, line)? else {
        return Ok(None);
    };
    Ok(Some(slot_list(boards, entries.as_slice())?))
}

// Ends with the fault of a line.
pub(crate) fn stop(line: u32, fault: TraceFault, out: &mut String) -> Result<(), AllocError>
    ensures { OnOk result (Stopped fault line (string_bytes out.old) (string_bytes out.new)) }
{
    match fault {
        TraceFault::Line(fault) => write!(out, "{}", Line::Fault { line, fault }),
        TraceFault::OutOfMemory => Err(AllocError),
    }
}

// The setup after the second line: where that is a slot list it stands in the round robin's place, and else the line is still to be carried out.
fn second(alloc: Global, opened: Setup, rest: &[u8]) -> Result<Setup, TraceFault>
    requires few { opened.used + length rest.now ≤ 32768 }
    requires stands { Opened opened }
    ensures { FromSecond result opened rest.now }
{
    let (line, after) = cut(rest, b'\n');
    let Some(_) = after else {
        return Ok(opened);
    };
    let Some(list) = relist(alloc, opened.schedule.boards(), line)? else {
        return Ok(opened);
    };
    Ok(Setup {
        schedule: BusSchedule::Listed(list),
        lines: opened.lines,
        kind: opened.kind,
        used: opened.used + line.len() + 1,
        line: 3,
    })
}

// The fault of a trace that has no whole line.
fn unopened(last: &[u8]) -> Line
    ensures { line_text result ≡ unopened last.now }
{
    let fault = if last.is_empty() {
        LineFault::Letter
    } else {
        LineFault::NoLineEnd
    };
    Line::Fault { line: 1, fault }
}

impl Setup {
    // What the first lines of a trace set up; where there is a fault in them it is listed, and there is nothing more to list.
    pub fn read(alloc: Global, trace: &[u8], out: &mut String) -> Result<Option<Setup>, AllocError>
        ensures { IfOk result (λ o. Begun o trace.now (string_bytes out.old) (string_bytes out.new)) }
    {
        if trace.len() > MAX_TRACE {
            write!(out, "{}", Line::TooLong)?;
            return Ok(None);
        }
        let (line, after) = cut(trace, b'\n');
        let Some(rest) = after else {
            write!(out, "{}", unopened(line))?;
            return Ok(None);
        };
        let opened = match open(alloc, line) {
            Ok(opened) => opened,
            Err(fault) => {
                stop(1, fault, out)?;
                return Ok(None);
            }
        };
        match second(alloc, opened, rest) {
            Ok(setup) => Ok(Some(setup)),
            Err(fault) => {
                stop(2, fault, out)?;
                Ok(None)
            }
        }
    }

    pub fn kind(&self) -> MemoryKind
        ensures { result ≡ self.now.kind }
    {
        self.kind
    }

    // The line count.
    pub fn lines(&self) -> usize
        ensures value { result ≡ self.now.lines }
        ensures few { result ≤ 64 }
    {
        self.lines
    }

    // The memory that the first line asks for, over the words lent to it.
    pub fn memory<'a>(&self, words: &'a mut [u64; 64]) -> TraceMemory<'a>
        ensures size { memory_size result ≡ self.now.lines }
        ensures words { memory_words result ≡ upto self.now.lines (λ k. slice_index words.old (start_of self.now.kind self.now.lines + k)) }
    {
        TraceMemory::over(words, self.lines, self.kind)
    }

    pub fn schedule(&self) -> BusSchedule
        ensures { result ≡ self.now.schedule }
    {
        self.schedule
    }

    // How many bytes of the trace it took.
    pub(crate) fn used(&self) -> usize
        ensures { result ≡ self.now.used }
    {
        self.used
    }

    // The number of the next line.
    pub(crate) fn line(&self) -> u32
        ensures value { result ≡ self.now.line }
        ensures early { result ≤ 3 }
    {
        self.line
    }
}
