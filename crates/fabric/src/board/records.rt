// One record of a board's table of lines: read, and changed with all others as they are.
ghost use Rattle.std.specs.Prelude.{◌≡◌};
ghost use Rattle.rules.specs.Boards.{begins, kept, lays, moves, next, stored};
ghost use Rattle.fabric.specs.Boards.{board_of, states_of, words_of};
ghost use Rattle.fabric.specs.Records.{recorded};

use crate::board::{Board, LineRecord};
use crate::index::LineIndex;
use copystate::events::Event;
use copystate::states::State;

// The record of a state: the word stays only with a copy.
#[tactic(auto, unfolding(rules::specs::Boards::kept))]
fn record_of(state: State, word: u64) -> LineRecord
    ensures { (result.state ≡ state) × (result.word ≡ kept state word) }
{
    if state.has_copy() {
        LineRecord { state, word }
    } else {
        LineRecord { state, word: 0 }
    }
}

impl Board {
    #[tactic(auto, unfolding(crate::specs::Boards::states_of))]
    pub(crate) fn state_at(&self, line: LineIndex) -> State
        ensures { result ≡ (board_of self.now).state line.at }
    {
        self.lines[line.at as usize].state
    }

    #[tactic(auto, unfolding(crate::specs::Boards::words_of))]
    pub(crate) fn word_at(&self, line: LineIndex) -> u64
        ensures { result ≡ (board_of self.now).word line.at }
    {
        self.lines[line.at as usize].word
    }

    #[tactic(auto, using(crate::proofs::Tables::set_record_lem))]
    fn set_record(&mut self, line: LineIndex, new: LineRecord)
        ensures { board_of self.new ≡ recorded line.at new.state new.word (board_of self.old) }
    {
        self.lines[line.at as usize] = new;
    }

    // A store that hits.
    #[tactic(auto, using(crate::proofs::Tables::set_word), unfolding(crate::specs::Boards::states_of))]
    pub(crate) fn store(&mut self, line: LineIndex, word: u64)
        ensures { board_of self.new ≡ stored line.at word (board_of self.old) }
    {
        self.lines[line.at as usize].word = word;
    }

    // An event, with the word that the copy then has. A write-back that begins goes to the end of the list.
    pub(crate) fn lay(&mut self, line: LineIndex, event: Event, word: u64)
        ensures { board_of self.new ≡ lays line.at event word (board_of self.old) }
    {
        let state = self.state_at(line);
        self.set_record(line, record_of(next_state(state, event), word));
        if begins_write_back(state, event) {
            self.write_backs.push(line);
        }
    }

    // An event that brings no word.
    pub(crate) fn take(&mut self, line: LineIndex, event: Event)
        ensures { board_of self.new ≡ moves line.at event (board_of self.old) }
    {
        let word = self.word_at(line);
        self.lay(line, event, word);
    }
}

#[tactic(auto, unfolding(rules::specs::Boards::next))]
fn next_state(state: State, event: Event) -> State
    ensures { result ≡ next state event }
{
    state.next(event)
}

#[tactic(auto, unfolding(rules::specs::Boards::begins))]
fn begins_write_back(state: State, event: Event) -> bool
    ensures { result ≡ begins state event }
{
    state.begins_write_back(event)
}
