// What the owner of a slot does.
ghost use Rattle.std.specs.Prelude.{◌≡◌, Some};
ghost use Rattle.rules.specs.Words.{deed_word};

use std::fmt;

#[derive(Clone, Copy, PartialEq, Eq, Debug)]
pub enum Deed {
    Idle,
    // Sent, and waiting.
    GetS,
    GetM,
    // Sent and served in one slot.
    GetSServed,
    GetMServed,
    // A store sent as an upgrade, and served.
    Upg,
    // Served, after it was sent in an earlier slot.
    Data,
    // A write-back.
    PutM,
}

impl Deed {
    // The word by which a listing shows it.
    pub fn word(self) -> &'static str
        ensures { result.now ≡ deed_word self }
    {
        match self {
            Deed::Idle => "idle",
            Deed::GetS => "GetS",
            Deed::GetM => "GetM",
            Deed::GetSServed => "GetS+",
            Deed::GetMServed => "GetM+",
            Deed::Upg => "Upg",
            Deed::Data => "Data",
            Deed::PutM => "PutM",
        }
    }
}

impl fmt::Display for Deed {
    ghost output = { λ d. Some (deed_word d) };

    fn fmt<W: fmt::Write>(&self, f: &mut fmt::Formatter<W>) -> fmt::Result {
        f.write_str(self.word())
    }
}
