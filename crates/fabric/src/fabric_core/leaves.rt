// Each change of one table, and each look at one.
ghost use Rattle.std.specs.Prelude.{◌≡◌, ◌≤◌};
ghost use Rattle.rules.specs.Cells.{aged, board_at, held, is_empty, is_first, joins, key_at, leaves, row_at, size_of, snoops, with_key, with_word, word_at};
ghost use Rattle.fabric.specs.Boards.{board_of};
ghost use Rattle.fabric.specs.Queues.{place};
ghost use Rattle.fabric.specs.Views.{view};

use crate::board::Board;
use crate::boards::{age, has_holder, snoop};
use crate::fabric_core::{Core, Turn};
use crate::index::{BoardIndex, LineIndex};
use copystate::events::Event;
use memory::interface::LineMemory;

impl<M: LineMemory> Core<M> {
    #[tactic(auto, using(crate::proofs::Views::board_is))]
    pub(crate) fn board(&self, board: BoardIndex) -> &Board
        ensures { board_of result.now ≡ board_at (view M.LineMemory self.now) board.at }
    {
        &self.boards[board.at as usize]
    }

    #[tactic(auto, using(crate::proofs::Views::put_front), unfolding(rules::specs::Cells::snoops, crate::specs::Views::view))]
    pub(crate) fn snoop_all(&mut self, turn: Turn, line: LineIndex, event: Event)
        ensures { view M.LineMemory self.new ≡ snoops turn.count turn.owner.at line.at event (view M.LineMemory self.old) }
    {
        snoop(&mut self.boards[..turn.count], turn.owner, line, event);
    }

    #[tactic(auto, using(crate::proofs::Views::put_front), unfolding(rules::specs::Cells::aged, crate::specs::Views::view))]
    pub(crate) fn age_all(&mut self, turn: Turn)
        ensures { view M.LineMemory self.new ≡ aged turn.count (view M.LineMemory self.old) }
    {
        age(&mut self.boards[..turn.count]);
    }

    #[tactic(auto, using(crate::proofs::Views::put_row, crate::proofs::Views::row_is))]
    pub(crate) fn join(&mut self, line: LineIndex, board: BoardIndex)
        ensures { view M.LineMemory self.new ≡ joins line.at board.at (view M.LineMemory self.old) }
    {
        self.lines[line.at as usize].row.push(board);
    }

    #[tactic(auto, using(crate::proofs::Views::put_row, crate::proofs::Views::row_is))]
    pub(crate) fn leave(&mut self, line: LineIndex)
        ensures { view M.LineMemory self.new ≡ leaves line.at (view M.LineMemory self.old) }
    {
        let _ = self.lines[line.at as usize].row.pop();
    }

    #[tactic(auto, using(crate::proofs::Views::put_word))]
    pub(crate) fn write(&mut self, line: LineIndex, word: u64)
        ensures { view M.LineMemory self.new ≡ with_word line.at word (view M.LineMemory self.old) }
    {
        self.memory.write(line.at as usize, word);
    }

    #[tactic(auto, using(crate::proofs::Views::words_are))]
    pub(crate) fn read(&self, line: LineIndex) -> u64
        ensures { result ≡ word_at (view M.LineMemory self.now) line.at }
    {
        self.memory.read(line.at as usize)
    }

    #[tactic(auto, using(crate::proofs::Views::size_is))]
    pub(crate) fn line_count(&self) -> usize
        ensures value { result ≡ size_of (view M.LineMemory self.now) }
        ensures few { result ≤ 64 }
    {
        self.memory.lines()
    }

    #[tactic(auto, using(crate::proofs::Views::row_is))]
    pub(crate) fn is_first(&self, board: BoardIndex, line: LineIndex) -> bool
        ensures { result ≡ is_first board.at (row_at (view M.LineMemory self.now) line.at) }
    {
        self.lines[line.at as usize].row.is_first(board)
    }

    #[tactic(auto, using(crate::proofs::Views::row_is))]
    pub(crate) fn is_row_empty(&self, line: LineIndex) -> bool
        ensures { result ≡ is_empty (row_at (view M.LineMemory self.now) line.at) }
    {
        self.lines[line.at as usize].row.is_empty()
    }

    pub(crate) fn is_held(&self, turn: Turn, line: LineIndex) -> bool
        ensures { result ≡ held turn.count line.at (view M.LineMemory self.now) }
    {
        has_holder(&self.boards[..turn.count], line)
    }

    #[tactic(auto, using(crate::proofs::Views::key_is))]
    pub(crate) fn key(&self, line: LineIndex) -> u16
        ensures { result ≡ key_at (view M.LineMemory self.now) line.at }
    {
        self.lines[line.at as usize].key
    }

    #[tactic(auto, using(crate::proofs::Views::put_key))]
    pub(crate) fn set_key(&mut self, line: LineIndex, key: u16)
        ensures { view M.LineMemory self.new ≡ with_key line.at key (view M.LineMemory self.old) }
    {
        self.lines[line.at as usize].key = key;
    }

    // The board at a place of a row.
    #[tactic(auto, using(crate::proofs::Views::row_is))]
    pub(crate) fn waiting(&self, line: LineIndex, at: usize) -> Option<usize>
        ensures { result ≡ place (row_at (view M.LineMemory self.now) line.at) at }
    {
        self.lines[line.at as usize].row.get(at)
    }
}
