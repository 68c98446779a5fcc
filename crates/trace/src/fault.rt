// Why a trace ends early. A refused schedule is carried whole into the line's fault, and that into the trace's.
ghost use Rattle.std.specs.Prelude.{◌≡◌, Some};
ghost use Rattle.trace.specs.declared.fault.LineFault.TheVariants as line;
ghost use Rattle.trace.specs.declared.fault.TraceFault.TheVariants as whole;
ghost use Rattle.trace.specs.Faults.{cause, fault_text};

use schedule::refusal::ScheduleRefusal;
use std::alloc::{AllocError, AllocFailed};
use std::fmt;

// What is wrong with a line.
#[derive(Clone, Copy, PartialEq, Eq, Debug)]
pub enum LineFault {
    // No line end after at most 200 bytes.
    NoLineEnd,
    // A letter that is unknown or out of place.
    Letter,
    // Too few or too many words.
    WordCount,
    // A word that is no number, or no kind of memory where one is wanted.
    NotANumber,
    // A number outside its field.
    OutOfField,
    // A schedule that is refused.
    Schedule(ScheduleRefusal),
}

// Why the reading of a trace ends early.
#[derive(Clone, Copy, PartialEq, Eq, Debug)]
pub enum TraceFault {
    Line(LineFault),
    OutOfMemory,
}

impl LineFault {
    // The published number of the cause; a `match`, since a case with a field has no number of its own.
    pub fn cause(self) -> u8
        ensures { result ≡ cause self }
    {
        match self {
            LineFault::NoLineEnd => 1,
            LineFault::Letter => 2,
            LineFault::WordCount => 3,
            LineFault::NotANumber => 4,
            LineFault::OutOfField => 5,
            LineFault::Schedule(_) => 6,
        }
    }
}

// As a listing shows it: the cause, and the number of the refusal where a schedule is refused.
impl fmt::Display for LineFault {
    ghost output = { λ f. Some (fault_text f) };

    fn fmt<W: fmt::Write>(&self, f: &mut fmt::Formatter<W>) -> fmt::Result {
        let cause = self.cause();
        match self {
            LineFault::Schedule(refusal) => write!(f, "{cause} {refusal}"),
            _ => write!(f, "{cause}"),
        }
    }
}

// By hand, for the clauses name the error that `?` makes of each.
impl From<ScheduleRefusal> for LineFault {
    ghost from_gives = { λ e r. r ≡ line.Schedule e };

    fn from(e: ScheduleRefusal) -> LineFault {
        LineFault::Schedule(e)
    }
}

impl From<LineFault> for TraceFault {
    ghost from_gives = { λ e r. r ≡ whole.Line e };

    fn from(e: LineFault) -> TraceFault {
        TraceFault::Line(e)
    }
}

impl From<AllocError> for TraceFault {
    ghost from_gives = { λ e r. r ≡ whole.OutOfMemory };

    fn from(_e: AllocError) -> TraceFault {
        TraceFault::OutOfMemory
    }
}

impl<T: Drop> From<AllocFailed<T>> for TraceFault {
    ghost from_gives = { λ e r. r ≡ whole.OutOfMemory };

    fn from(_e: AllocFailed<T>) -> TraceFault {
        TraceFault::OutOfMemory
    }
}
