// The board and the line that a call names, or why it is refused.
ghost use Rattle.std.specs.Prelude.{◌≡◌, ◌≤◌, IfOk};
ghost use Rattle.std.specs.Result.{result_err};
ghost use Rattle.rules.specs.Calls.{vacant};
ghost use Rattle.rules.specs.Cells.{size_of};
ghost use Rattle.rules.specs.declared.refusal.Refusal.TheVariants.{NoBoard, NoLine};
ghost use Rattle.fabric.specs.Found.{Found};
ghost use Rattle.fabric.specs.Worlds.{world};

use crate::fabric::Fabric;
use crate::index::{BoardIndex, Index, LineIndex};
use memory::interface::LineMemory;
use rules::refusal::Refusal;
use schedule::Schedule;

// The index of a number that is below the limit, or else the refusal.
fn below<const N: usize>(number: usize, limit: usize, refusal: Refusal) -> Result<Index<N>, Refusal>
    requires limit { limit ≤ N }
    requires byte { N ≤ 256 }
    ensures { Found number limit refusal result }
{
    if number < limit {
        Ok(Index { at: number as u8 })
    } else {
        Err(refusal)
    }
}

impl<S: Schedule, M: LineMemory> Fabric<S, M> {
    pub(crate) fn find_board(&self, board: usize) -> Result<BoardIndex, Refusal>
        ensures { Found board (world S.Schedule M.LineMemory self.now).count NoBoard result }
    {
        below(board, self.schedule.boards(), Refusal::NoBoard)
    }

    pub(crate) fn find_line(&self, line: usize) -> Result<LineIndex, Refusal>
        ensures { Found line (size_of (world S.Schedule M.LineMemory self.now).cells) NoLine result }
    {
        below(line, self.core.line_count(), Refusal::NoLine)
    }

    // A board without a request, and a line.
    #[tactic(auto, unfolding(rules::specs::Calls::vacant))]
    pub(crate) fn find_vacant(
        &self,
        board: usize,
        line: usize,
    ) -> Result<(BoardIndex, LineIndex), Refusal>
        ensures value { result_err result ≡ vacant (world S.Schedule M.LineMemory self.now).count board line (world S.Schedule M.LineMemory self.now).cells }
        ensures found { IfOk result (λ p. (p.0.at ≡ board) × (p.1.at ≡ line)) }
    {
        let board = self.find_board(board)?;
        let line = self.find_line(line)?;
        if self.core.is_busy(board) {
            return Err(Refusal::Busy);
        }
        Ok((board, line))
    }
}
