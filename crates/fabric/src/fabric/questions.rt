// What a fabric holds, asked entry by entry. Asking changes nothing.
ghost use Rattle.std.specs.Prelude.{◌≡◌};
ghost use Rattle.std.specs.Result.{result_map_both};
ghost use Rattle.rules.specs.Cells.{key_at, row_at, size_of};
ghost use Rattle.fabric.specs.Boards.{place_of};
ghost use Rattle.fabric.specs.Queues.{place};
ghost use Rattle.fabric.specs.Worlds.{of_board, of_copy, of_line, world};

use crate::board::Request;
use crate::fabric::Fabric;
use copystate::states::State;
use memory::interface::LineMemory;
use rules::kind::LastDeed;
use rules::refusal::Refusal;
use schedule::Schedule;

impl<S: Schedule, M: LineMemory> Fabric<S, M> {
    // The board count.
    pub fn boards(&self) -> usize
        ensures { result ≡ (world S.Schedule M.LineMemory self.now).count }
    {
        self.schedule.boards()
    }

    pub fn period(&self) -> usize
        ensures { result ≡ (world S.Schedule M.LineMemory self.now).span }
    {
        self.schedule.period()
    }

    // The line count.
    pub fn lines(&self) -> usize
        ensures { result ≡ size_of (world S.Schedule M.LineMemory self.now).cells }
    {
        self.core.line_count()
    }

    // The board's request, or none.
    pub fn request(&self, board: usize) -> Result<Option<Request>, Refusal>
        ensures { result_map_both place_of (λ e. e) result ≡ of_board (world S.Schedule M.LineMemory self.now) board (λ x. x.place) }
    {
        let board = self.find_board(board)?;
        Ok(self.core.board(board).request)
    }

    // The line at a place of the board's write-back list, oldest first, or none past its end.
    pub fn write_back(&self, board: usize, at: usize) -> Result<Option<usize>, Refusal>
        ensures { result ≡ of_board (world S.Schedule M.LineMemory self.now) board (λ x. place x.list at) }
    {
        let board = self.find_board(board)?;
        Ok(self.core.board(board).write_backs.get(at))
    }

    // The board's marked replacement, or none.
    pub fn marked(&self, board: usize) -> Result<Option<usize>, Refusal>
        ensures { result ≡ of_board (world S.Schedule M.LineMemory self.now) board (λ x. x.mark) }
    {
        let board = self.find_board(board)?;
        Ok(self.core.board(board).marked.map(|line| line.at as usize))
    }

    pub fn last_deed(&self, board: usize) -> Result<LastDeed, Refusal>
        ensures { result ≡ of_board (world S.Schedule M.LineMemory self.now) board (λ x. x.last) }
    {
        let board = self.find_board(board)?;
        Ok(self.core.board(board).last)
    }

    pub fn state(&self, board: usize, line: usize) -> Result<State, Refusal>
        ensures { result ≡ of_copy (world S.Schedule M.LineMemory self.now) board line (λ x. x.state line) }
    {
        let board = self.find_board(board)?;
        let line = self.find_line(line)?;
        Ok(self.core.board(board).state_at(line))
    }

    // The word of the board's copy, and 0 where it has none.
    pub fn word(&self, board: usize, line: usize) -> Result<u64, Refusal>
        ensures { result ≡ of_copy (world S.Schedule M.LineMemory self.now) board line (λ x. x.word line) }
    {
        let board = self.find_board(board)?;
        let line = self.find_line(line)?;
        Ok(self.core.board(board).word_at(line))
    }

    // The board at a place of the line's row, oldest first, or none past its end.
    pub fn waiting(&self, line: usize, at: usize) -> Result<Option<usize>, Refusal>
        ensures { result ≡ of_line (world S.Schedule M.LineMemory self.now) line (λ s. place (row_at s line) at) }
    {
        let line = self.find_line(line)?;
        Ok(self.core.waiting(line, at))
    }

    // The line's key; 0 is open.
    pub fn key(&self, line: usize) -> Result<u16, Refusal>
        ensures { result ≡ of_line (world S.Schedule M.LineMemory self.now) line (λ s. key_at s line) }
    {
        let line = self.find_line(line)?;
        Ok(self.core.key(line))
    }

    // The schedule and the memory back, as the calls have left them.
    pub fn into_parts(self) -> (S, M)
        ensures { (result.0 ≡ self.schedule) × (result.1 ≡ self.core.memory) }
    {
        let Fabric { schedule, core } = self;
        (schedule, core.into_memory())
    }
}
