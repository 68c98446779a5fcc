// The table of next states: a row for each state, an entry for each event.
ghost use Rattle.std.specs.Prelude.{◌≡◌};
ghost use Rattle.copystate.specs.Law.{EntryLaw};
ghost use Rattle.copystate.specs.Table.{entry_of, taken, next_of, is_met, meets, begins_write_back};

use crate::events::Event;
use crate::states::State;

// What the table has at a state and an event.
#[derive(Clone, Copy, PartialEq, Eq, Debug)]
pub enum Entry {
    Same,
    To(State),
    Never,
}

impl Entry {
    // Where the entry takes a board in the state.
    pub(crate) fn taken_from(self, state: State) -> State
        ensures { result ≡ taken state self }
    {
        match self {
            Entry::Same | Entry::Never => state,
            Entry::To(next) => next,
        }
    }

    // Whether an event with this entry is ever met.
    pub(crate) fn is_met(self) -> bool
        ensures { result ≡ is_met self }
    {
        !matches!(self, Entry::Never)
    }
}

// A row of the table: its ten entries. A struct, since the table is to be read as one of rows by the project's rule.
#[derive(Clone, Copy)]
struct Row([Entry; 10]);

// The entries, by the names that a row has room for.
const NO: Entry = Entry::Never;

const EQ: Entry = Entry::Same;

const TO_I: Entry = Entry::To(State::I);

const TO_S: Entry = Entry::To(State::S);

const TO_M: Entry = Entry::To(State::M);

const TO_ISD: Entry = Entry::To(State::ISd);

const TO_IMD: Entry = Entry::To(State::IMd);

const TO_SMW: Entry = Entry::To(State::SMw);

const TO_MIWB: Entry = Entry::To(State::MIwb);

const TO_MSWB: Entry = Entry::To(State::MSwb);

const TO_IMDI: Entry = Entry::To(State::IMdI);

const TO_ISDI: Entry = Entry::To(State::ISdI);

const TO_IMDS: Entry = Entry::To(State::IMdS);

// The rows stand in the order of the states' codes, their entries in that of the events'.
const TABLE: [Row; 11] = [
    Row([EQ, TO_ISD, TO_IMD, NO, NO, NO, NO, EQ, EQ, EQ]),
    Row([TO_SMW, NO, NO, TO_I, NO, NO, NO, EQ, TO_I, TO_I]),
    Row([NO, NO, NO, TO_MIWB, NO, NO, NO, TO_MSWB, TO_MIWB, NO]),
    Row([NO, NO, NO, NO, TO_S, NO, NO, EQ, TO_ISDI, NO]),
    Row([NO, NO, NO, NO, TO_M, NO, NO, TO_IMDS, TO_IMDI, NO]),
    Row([NO, NO, TO_IMD, NO, NO, TO_M, NO, EQ, TO_I, TO_I]),
    Row([NO, NO, NO, NO, NO, NO, TO_I, EQ, EQ, NO]),
    Row([NO, NO, NO, TO_MIWB, NO, NO, TO_S, EQ, TO_MIWB, NO]),
    Row([NO, NO, NO, NO, TO_MIWB, NO, NO, EQ, EQ, NO]),
    Row([NO, NO, NO, NO, TO_I, NO, NO, EQ, EQ, NO]),
    Row([NO, NO, NO, NO, TO_MSWB, NO, NO, EQ, TO_IMDI, NO]),
];

impl State {
    // The entry at this state and the event.
    pub fn entry(self, event: Event) -> Entry
        ensures { result ≡ entry_of self event }
    {
        TABLE[self as usize].0[event as usize]
    }

    // The state after the event: the same state also where the event is never met. The law says what may have changed.
    pub fn next(self, event: Event) -> State
        ensures after { result ≡ next_of self event }
        ensures law { EntryLaw self event }
    {
        self.entry(event).taken_from(self)
    }

    // Whether the event is ever met in this state.
    pub fn meets(self, event: Event) -> bool
        ensures { result ≡ meets self event }
    {
        self.entry(event).is_met()
    }

    // Whether the event puts the line into the board's list of write-backs.
    pub fn begins_write_back(self, event: Event) -> bool
        ensures { result ≡ begins_write_back self event }
    {
        !self.is_writing_back() && self.next(event).is_writing_back()
    }
}
