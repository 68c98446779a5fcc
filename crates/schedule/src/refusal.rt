// Why a schedule is refused.
ghost use Rattle.std.specs.Prelude.{◌≡◌, Some, decimal};
ghost use Rattle.std.specs.Result.{result_err};
ghost use Rattle.schedule.specs.Lists.{count_refusal};
ghost use Rattle.schedule.specs.Numbers.{number};

use std::fmt;

#[derive(Clone, Copy, PartialEq, Eq, Debug)]
pub enum ScheduleRefusal {
    // The board count is 0 or above 16.
    BoardCount = 1,
    // The list is empty or longer than 64.
    ListLength = 2,
    // The list names a board that is not below the count.
    ForeignBoard = 3,
    // A board has no entry in the list.
    MissingBoard = 4,
}

impl ScheduleRefusal {
    // The published number.
    pub fn number(self) -> u8
        ensures { result ≡ number self }
    {
        self as u8
    }
}

// The test of the board count, which both schedules make.
pub(crate) fn test_count(boards: usize) -> Result<(), ScheduleRefusal>
    ensures { result_err result ≡ count_refusal boards }
{
    if boards == 0 || boards > 16 {
        return Err(ScheduleRefusal::BoardCount);
    }
    Ok(())
}

impl fmt::Display for ScheduleRefusal {
    ghost output = { λ e. Some (decimal (number e)) };

    fn fmt<W: fmt::Write>(&self, f: &mut fmt::Formatter<W>) -> fmt::Result {
        write!(f, "{}", self.number())
    }
}
