// One board changed in its place. No `&mut Board` is lent out, since nothing is proved of an element after its loan.
ghost use Rattle.std.specs.Prelude.{◌≡◌};
ghost use Rattle.rules.specs.Boards.{free, gets, lifts, placed, posts, replaces, sends, stored};
ghost use Rattle.rules.specs.Cells.{board_at, with_board};
ghost use Rattle.rules.specs.Slots.{first_of};
ghost use Rattle.fabric.specs.Deeds.{gave_at, given, given_at};
ghost use Rattle.fabric.specs.Views.{view};

use crate::board::Request;
use crate::fabric_core::Core;
use crate::index::{BoardIndex, LineIndex};
use copystate::events::Event;
use memory::interface::LineMemory;
use rules::kind::Kind;

#[tactic(auto, using(crate::proofs::Views::put_board, crate::proofs::Views::board_is))]
impl<M: LineMemory> Core<M> {
    pub(crate) fn post_at(&mut self, board: BoardIndex, line: LineIndex, kind: Kind)
        ensures { view M.LineMemory self.new ≡ with_board board.at (posts line.at kind (board_at (view M.LineMemory self.old) board.at)) (view M.LineMemory self.old) }
    {
        self.boards[board.at as usize].post(line, kind);
    }

    pub(crate) fn store_at(&mut self, board: BoardIndex, line: LineIndex, word: u64)
        ensures { view M.LineMemory self.new ≡ with_board board.at (stored line.at word (board_at (view M.LineMemory self.old) board.at)) (view M.LineMemory self.old) }
    {
        self.boards[board.at as usize].store(line, word);
    }

    pub(crate) fn replace_at(&mut self, board: BoardIndex, line: LineIndex)
        ensures { view M.LineMemory self.new ≡ with_board board.at (replaces line.at (board_at (view M.LineMemory self.old) board.at)) (view M.LineMemory self.old) }
    {
        self.boards[board.at as usize].replace(line);
    }

    pub(crate) fn free_at(&mut self, board: BoardIndex)
        ensures { view M.LineMemory self.new ≡ with_board board.at (placed free (board_at (view M.LineMemory self.old) board.at)) (view M.LineMemory self.old) }
    {
        self.boards[board.at as usize].clear();
    }

    pub(crate) fn send_at(&mut self, board: BoardIndex, event: Event, request: Request)
        ensures { view M.LineMemory self.new ≡ with_board board.at (sends event request.line.at request.kind request.waited (board_at (view M.LineMemory self.old) board.at)) (view M.LineMemory self.old) }
    {
        self.boards[board.at as usize].send(event, request);
    }

    pub(crate) fn get_at(&mut self, board: BoardIndex, request: Request, word: u64)
        ensures { view M.LineMemory self.new ≡ with_board board.at (gets request.line.at request.kind request.waited word (board_at (view M.LineMemory self.old) board.at)) (view M.LineMemory self.old) }
    {
        self.boards[board.at as usize].get(request, word);
    }

    pub(crate) fn lift_at(&mut self, board: BoardIndex, request: Request, word: u64)
        ensures { view M.LineMemory self.new ≡ with_board board.at (lifts request.line.at word request.waited (board_at (view M.LineMemory self.old) board.at)) (view M.LineMemory self.old) }
    {
        self.boards[board.at as usize].lift(request, word);
    }

    pub(crate) fn give_at(&mut self, board: BoardIndex) -> Option<(LineIndex, u64)>
        ensures value { given_at result ≡ given (first_of (board_at (view M.LineMemory self.old) board.at).list) (board_at (view M.LineMemory self.old) board.at) }
        ensures after { view M.LineMemory self.new ≡ gave_at board.at (first_of (board_at (view M.LineMemory self.old) board.at).list) (view M.LineMemory self.old) }
    {
        self.boards[board.at as usize].give()
    }
}
