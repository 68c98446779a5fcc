// A load or a store that is accepted: it hits, or its request is posted.
ghost use Rattle.std.specs.Prelude.{◌≡◌};
ghost use Rattle.rules.specs.Calls.{asked, hits, replied};
ghost use Rattle.fabric.specs.Views.{view};
ghost use Rattle.fabric.specs.Worlds.{reply_of};

use crate::answer::Reply;
use crate::fabric_core::Core;
use crate::index::{BoardIndex, LineIndex};
use copystate::states::State;
use memory::interface::LineMemory;
use rules::kind::Kind;

fn is_hit(kind: Kind, state: State) -> bool
    ensures { result ≡ hits kind state }
{
    match kind {
        Kind::Load => state.load_hits(),
        Kind::Store(_) => state.store_hits(),
    }
}

impl<M: LineMemory> Core<M> {
    pub(crate) fn reply(&mut self, board: BoardIndex, line: LineIndex, kind: Kind) -> Reply
        ensures answer { reply_of result ≡ replied board.at line.at kind (view M.LineMemory self.old) }
        ensures after { view M.LineMemory self.new ≡ asked board.at line.at kind (view M.LineMemory self.old) }
    {
        if !is_hit(kind, self.board(board).state_at(line)) {
            self.post_at(board, line, kind);
            return None;
        }
        match kind {
            Kind::Load => Some(self.board(board).word_at(line)),
            Kind::Store(word) => {
                self.store_at(board, line, word);
                Some(word)
            }
        }
    }
}
