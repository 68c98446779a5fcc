// What a call tests before it does anything.
ghost use Rattle.std.specs.Prelude.{◌≡◌, not, ◌&&◌, is_some};
ghost use Rattle.copystate.specs.States.{modified};
ghost use Rattle.rules.specs.Calls.{is_free, locked, replaceable};
ghost use Rattle.rules.specs.Cells.{board_at};
ghost use Rattle.fabric.specs.Views.{view};

use crate::fabric_core::Core;
use crate::index::{BoardIndex, LineIndex};
use copystate::states::State;
use memory::interface::LineMemory;

fn is_replaceable(state: State) -> bool
    ensures { result ≡ replaceable state }
{
    !matches!(state, State::I | State::MIwb)
}

impl<M: LineMemory> Core<M> {
    pub(crate) fn is_busy(&self, board: BoardIndex) -> bool
        ensures { result ≡ not (is_free (board_at (view M.LineMemory self.now) board.at).place) }
    {
        self.board(board).has_request()
    }

    // The line has a key, and it is another.
    pub(crate) fn is_locked(&self, line: LineIndex, key: u16) -> bool
        ensures { result ≡ locked line.at key (view M.LineMemory self.now) }
    {
        let own = self.key(line);
        own != 0 && key != own
    }

    pub(crate) fn can_replace(&self, board: BoardIndex, line: LineIndex) -> bool
        ensures { result ≡ replaceable ((board_at (view M.LineMemory self.now) board.at).state line.at) }
    {
        is_replaceable(self.board(board).state_at(line))
    }

    // The line is in M, and a marked replacement still waits.
    pub(crate) fn must_wait_to_replace(&self, board: BoardIndex, line: LineIndex) -> bool
        ensures { result ≡ (modified ((board_at (view M.LineMemory self.now) board.at).state line.at) && is_some (board_at (view M.LineMemory self.now) board.at).mark) }
    {
        self.board(board).state_at(line).is_modified() && self.board(board).marked.is_some()
    }
}
