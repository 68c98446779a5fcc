// Slot schedules: who owns the bus in each slot.
#![tactic(auto)]

ghost use Rattle.std.specs.Prelude.{◌≡◌, ℕ, ◌<◌, ◌≤◌};
ghost use Rattle.schedule.specs.Rows.{Lawful, later};

pub mod refusal;
mod ring;
pub mod round_robin;
pub mod slot_list;

// A schedule means a board count, a period and the endless row of slot owners from now on.
pub trait Schedule {
    ghost count: { Self → ℕ };

    ghost span: { Self → ℕ };

    ghost owners: { Self → ℕ → ℕ };

    // The board count N.
    fn boards(&self) -> usize
        ensures value { result ≡ count self.now }
        ensures bound { (0 < result) × (result ≤ 16) };

    // The period P: any P slots in a row have one of each board.
    fn period(&self) -> usize
        ensures value { result ≡ span self.now }
        ensures bound { (0 < result) × (result ≤ 64) };

    // Takes the next owner off the row.
    fn next_owner(&mut self) -> usize
        ensures first { result ≡ owners self.old 0 }
        ensures bound { (result < count self.old) × (result < 16) }
        ensures rest { owners self.new ≡ later (owners self.old) }
        ensures count { count self.new ≡ count self.old }
        ensures span { span self.new ≡ span self.old };

    ghost lawful: { (s : Self) → Lawful (count s) (span s) (owners s) };
}
