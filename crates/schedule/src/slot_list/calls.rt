// The calls of a slot list.
ghost use Rattle.std.specs.Prelude.{◌≡◌, ℕ, ◌+◌, ◌<◌, ◌≤◌, false, List, [], ◌∷◌, length, is_some, MatchResult};
ghost use Rattle.std.specs.Result.{result_err};
ghost use Rattle.schedule.specs.Rows.{later};
ghost use Rattle.schedule.specs.Lists.{Accepted, FirstFit, list_refusal};
ghost use Rattle.schedule.specs.Meanings.{Means, list_count, list_owners, list_span};
ghost use Rattle.schedule.specs.Laws.{slot_list_lawful};

use crate::Schedule;
use crate::refusal::{ScheduleRefusal, test_count};
use crate::ring::Ring;
use crate::slot_list::SlotList;
use crate::slot_list::scan::{has_foreign, has_missing, padded};

// The tests of a list for `boards` boards, in the order of their numbers. Apart from `accepts`, whose law `search` does not
// prove at each of these returns.
fn tests(boards: usize, entries: &[u8]) -> Result<(), ScheduleRefusal>
    ensures { result_err result ≡ list_refusal boards entries.now }
{
    test_count(boards)?;
    if entries.is_empty() || entries.len() > 64 {
        return Err(ScheduleRefusal::ListLength);
    }
    if has_foreign(entries, boards) {
        return Err(ScheduleRefusal::ForeignBoard);
    }
    if has_missing(entries, boards) {
        return Err(ScheduleRefusal::MissingBoard);
    }
    Ok(())
}

// The first refusal that fits a list.
#[tactic(auto, using(crate::specs::Refusals::first_answer))]
fn accepts(boards: usize, entries: &[u8]) -> Result<(), ScheduleRefusal>
    ensures refuses { result_err result ≡ list_refusal boards entries.now }
    ensures first { MatchResult result (λ _. Accepted boards entries.now) (λ e. FirstFit boards entries.now e) }
{
    tests(boards, entries)
}

impl SlotList {
    // A list that is accepted, from its first entry on.
    #[tactic(auto, using(crate::specs::Laws::list_starts))]
    fn of(boards: usize, entries: &[u8]) -> SlotList
        requires { is_some (list_refusal boards entries.now) ≡ false }
        ensures { Means result boards entries.now }
    {
        SlotList {
            entries: padded(entries),
            ring: Ring::start(entries.len()),
            boards,
        }
    }

    // The built-in list of board 0 alone.
    pub fn board_zero() -> SlotList
        ensures { Means result 1 (0 ∷ []) }
    {
        SlotList::of(1, &[0])
    }

    // A new list in the place of this one, from its first entry on, unless it is refused.
    pub fn replace(&mut self, boards: usize, entries: &[u8]) -> Result<(), ScheduleRefusal>
        ensures refuses { result_err result ≡ list_refusal boards entries.now }
        ensures first { MatchResult result (λ _. Accepted boards entries.now) (λ e. FirstFit boards entries.now e) }
        ensures after { MatchResult result (λ _. Means self.new boards entries.now) (λ _. self.new ≡ self.old) }
    {
        accepts(boards, entries)?;
        *self = SlotList::of(boards, entries);
        Ok(())
    }
}

impl Schedule for SlotList {
    ghost count = { list_count };

    ghost span = { list_span };

    ghost owners = { list_owners };

    ghost lawful = { slot_list_lawful };

    fn boards(&self) -> usize {
        self.boards
    }

    fn period(&self) -> usize {
        self.ring.len()
    }

    #[tactic(auto, using(crate::specs::Laws::list_first, crate::specs::Laws::list_later))]
    fn next_owner(&mut self) -> usize {
        self.entries[self.ring.next()] as usize
    }
}
