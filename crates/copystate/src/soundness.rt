// The check of the whole table: no entry may make two holders, alone or beside a second board.
ghost use Rattle.std.specs.Prelude.{◌≡◌, true};
ghost use Rattle.copystate.specs.Law.{TableLaw};
ghost use Rattle.copystate.specs.Rules.{makes_holder, ends_holder, takes_modified, clears};
ghost use Rattle.copystate.specs.Soundness.{holder_right, nothing_made, copies_cleared, copies_shared, modified_left_right, board_safe, happens, pair_kept, pair_safe, table_passes};
ghost use Rattle.copystate.specs.Table.{entry_of, taken};

use crate::events::Event;
use crate::pairs::{are_beside, is_allowed, meets_heard, next_heard};
use crate::states::State;
use crate::table::Entry;

// What an event may do to a holder and to a copy.
fn takes_modified(event: Event) -> bool
    ensures { result ≡ takes_modified event }
{
    matches!(event, Event::Replace | Event::OtherGetS | Event::OtherGetM)
}

fn clears_copies(event: Event) -> bool
    ensures { result ≡ clears event }
{
    matches!(event, Event::OtherGetM | Event::OtherUpg)
}

// What an entry would do at a state and an event: any entry, so that the tests can refuse one.
#[derive(Clone, Copy)]
struct Step {
    state: State,
    event: Event,
    entry: Entry,
}

impl Step {
    // The step with the entry that stands in the table.
    fn of_table(state: State, event: Event) -> Step
        ensures { (result.state ≡ state) × (result.event ≡ event) × (result.entry ≡ entry_of state event) }
    {
        Step {
            state,
            event,
            entry: state.entry(event),
        }
    }

    fn after(self) -> State
        ensures { result ≡ taken self.state self.entry }
    {
        self.entry.taken_from(self.state)
    }

    fn makes_holder(self) -> bool
        ensures { result ≡ makes_holder self.state self.event }
    {
        match self.event {
            Event::OwnData => self.state.is_waiting_to_write(),
            Event::OwnUpg => self.state.is_upgrading(),
            _ => false,
        }
    }

    fn ends_holder(self) -> bool
        ensures { result ≡ ends_holder self.state self.event }
    {
        matches!(self.event, Event::OwnPutM) && self.state.is_writing_back()
    }

    fn holder_right(self) -> bool
        ensures { result ≡ holder_right self.state self.event self.entry }
    {
        self.after().is_holder()
            == (!self.ends_holder() && (self.makes_holder() || self.state.is_holder()))
    }

    // Another board's message makes no holder and no copy.
    fn nothing_made(self) -> bool
        ensures { result ≡ nothing_made self.state self.event self.entry }
    {
        !self.event.is_of_another()
            || (self.after().is_holder() == self.state.is_holder()
                && (!self.after().has_copy() || self.state.has_copy()))
    }

    // Where another board is to write, no copy is left but MIwb.
    fn copies_cleared(self) -> bool
        ensures { result ≡ copies_cleared self.state self.event self.entry }
    {
        !clears_copies(self.event)
            || !self.entry.is_met()
            || !self.after().has_copy()
            || matches!(self.after(), State::MIwb)
    }

    // Where another board is to read, copies stay, and none in M.
    fn copies_shared(self) -> bool
        ensures { result ≡ copies_shared self.state self.event self.entry }
    {
        !matches!(self.event, Event::OtherGetS)
            || (self.after().has_copy() == self.state.has_copy() && !self.after().is_modified())
    }

    fn modified_left_right(self) -> bool
        ensures { result ≡ modified_left_right self.state self.event self.entry }
    {
        !self.state.is_modified()
            || self.after().is_modified()
            || (takes_modified(self.event) && self.after().is_writing_back())
    }

    // Whether the table may have the entry, as far as one board is concerned.
    fn board_safe(self) -> bool
        ensures { result ≡ board_safe self.state self.event self.entry }
    {
        self.holder_right()
            && self.nothing_made()
            && self.copies_cleared()
            && self.copies_shared()
            && self.modified_left_right()
    }

    // Whether the event happens to a board beside one in `other`.
    fn happens_beside(self, other: State) -> bool
        ensures { result ≡ happens self.state self.event self.entry other }
    {
        are_beside(self.state, other)
            && self.entry.is_met()
            && is_allowed(self.state, self.event, other)
    }

    // The two stay beside one another, and the other meets what it hears.
    fn pair_kept(self, other: State) -> bool
        ensures { result ≡ pair_kept self.state self.event self.entry other }
    {
        let heard = self.event.heard();
        are_beside(self.after(), next_heard(other, heard)) && meets_heard(other, heard)
    }

    fn pair_safe(self, other: State) -> bool
        ensures { result ≡ pair_safe self.state self.event self.entry other }
    {
        !self.happens_beside(other) || self.pair_kept(other)
    }
}

// The tests at an entry of the table.
#[tactic(auto, using(crate::proofs::Checked::safe))]
fn board_passes(state: State, event: Event) -> bool
    ensures tested { result ≡ board_safe state event (entry_of state event) }
    ensures passed { result ≡ true }
{
    Step::of_table(state, event).board_safe()
}

#[tactic(auto, using(crate::proofs::Checked::pair))]
fn pair_passes(state: State, event: Event, other: State) -> bool
    ensures tested { result ≡ pair_safe state event (entry_of state event) other }
    ensures passed { result ≡ true }
{
    Step::of_table(state, event).pair_safe(other)
}

// Runs the tests at every entry: none is refused, and so the law of the table holds at any state and event.
#[tactic(auto, using(crate::proofs::Checked::table_passes_is_true, crate::proofs::Laws::table_law))]
pub fn table_is_sound() -> bool
    ensures sound { result ≡ true }
    ensures checked { table_passes ≡ true }
    ensures law { TableLaw }
{
    State::ALL.iter().all(|state| {
        Event::ALL.iter().all(|event| {
            board_passes(*state, *event)
                && State::ALL
                    .iter()
                    .all(|other| pair_passes(*state, *event, *other))
        })
    })
}
