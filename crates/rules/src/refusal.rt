// Why a call is rejected.
ghost use Rattle.std.specs.Prelude.{◌≡◌, Some, decimal};
ghost use Rattle.rules.specs.Words.{number};

use std::fmt;

#[derive(Clone, Copy, PartialEq, Eq, Debug)]
pub enum Refusal {
    // The board is not below the board count.
    NoBoard = 5,
    // The line is not below the line count.
    NoLine = 6,
    // The board has a request, served or not.
    Busy = 7,
    // The new key is above 9999.
    KeyTooLarge = 8,
    // The line has a key, and it is another.
    KeyDiffers = 9,
    // The line is in I or MIwb.
    NothingToReplace = 10,
    // The line is in M, and a marked replacement of this board still waits.
    ReplacementWaits = 11,
    // The board has no request.
    NoRequest = 12,
    // The claim's board has no request, or one of another line or kind.
    NotClaimed = 13,
    // The request is not served.
    NotServed = 14,
}

impl Refusal {
    // The published number.
    pub fn number(self) -> u8
        ensures { result ≡ number self }
    {
        self as u8
    }
}

impl fmt::Display for Refusal {
    ghost output = { λ r. Some (decimal (number r)) };

    fn fmt<W: fmt::Write>(&self, f: &mut fmt::Formatter<W>) -> fmt::Result {
        write!(f, "{}", self.number())
    }
}
