// The calls of a fabric.
ghost use Rattle.std.specs.Prelude.{◌≡◌};
ghost use Rattle.rules.specs.Calls.{collect, fresh, guard, load, replace, says, slot, step, store};
ghost use Rattle.fabric.specs.Worlds.{done_of, got_of, replied_of, report_of, world};

use crate::answer::{Collected, Reply, SlotReport};
use crate::fabric::Fabric;
use crate::fabric_core::{Core, Turn};
use crate::index::Index;
use memory::interface::LineMemory;
use rules::kind::Kind;
use rules::refusal::Refusal;
use schedule::Schedule;

// The largest key.
const MAX_KEY: u16 = 9999;

impl<S: Schedule, M: LineMemory> Fabric<S, M> {
    // A fabric with every state I, nothing waiting and every line open.
    pub fn new(schedule: S, memory: M) -> Fabric<S, M>
        ensures { world S.Schedule M.LineMemory result ≡ fresh (M.LineMemory.words memory) (M.LineMemory.size memory) (S.Schedule.owners schedule) (S.Schedule.count schedule) (S.Schedule.span schedule) }
    {
        Fabric {
            schedule,
            core: Core::new(memory),
        }
    }

    // The line's word at once, or a request for it.
    pub fn load(&mut self, board: usize, line: usize) -> Result<Reply, Refusal>
        ensures answer { replied_of result ≡ says (load board line) (world S.Schedule M.LineMemory self.old) }
        ensures after { world S.Schedule M.LineMemory self.new ≡ step (load board line) (world S.Schedule M.LineMemory self.old) }
    {
        let (board, line) = self.find_vacant(board, line)?;
        Ok(self.core.reply(board, line, Kind::Load))
    }

    // The word goes into the board's copy at once, or a request with it is posted. The key is tested before anything is written.
    pub fn store(
        &mut self,
        board: usize,
        line: usize,
        word: u64,
        key: u16,
    ) -> Result<Reply, Refusal>
        ensures answer { replied_of result ≡ says (store board line word key) (world S.Schedule M.LineMemory self.old) }
        ensures after { world S.Schedule M.LineMemory self.new ≡ step (store board line word key) (world S.Schedule M.LineMemory self.old) }
    {
        let (board, line) = self.find_vacant(board, line)?;
        if self.core.is_locked(line, key) {
            return Err(Refusal::KeyDiffers);
        }
        Ok(self.core.reply(board, line, Kind::Store(word)))
    }

    // The board gives its copy of a line up; a modified one is written back first.
    pub fn replace(&mut self, board: usize, line: usize) -> Result<(), Refusal>
        ensures answer { done_of result ≡ says (replace board line) (world S.Schedule M.LineMemory self.old) }
        ensures after { world S.Schedule M.LineMemory self.new ≡ step (replace board line) (world S.Schedule M.LineMemory self.old) }
    {
        let (board, line) = self.find_vacant(board, line)?;
        if !self.core.can_replace(board, line) {
            return Err(Refusal::NothingToReplace);
        }
        if self.core.must_wait_to_replace(board, line) {
            return Err(Refusal::ReplacementWaits);
        }
        self.core.replace_at(board, line);
        Ok(())
    }

    // A new key for a line; 0 opens it.
    pub fn guard(&mut self, line: usize, old: u16, new: u16) -> Result<(), Refusal>
        ensures answer { done_of result ≡ says (guard line old new) (world S.Schedule M.LineMemory self.old) }
        ensures after { world S.Schedule M.LineMemory self.new ≡ step (guard line old new) (world S.Schedule M.LineMemory self.old) }
    {
        let line = self.find_line(line)?;
        if new > MAX_KEY {
            return Err(Refusal::KeyTooLarge);
        }
        if self.core.is_locked(line, old) {
            return Err(Refusal::KeyDiffers);
        }
        self.core.set_key(line, new);
        Ok(())
    }

    // The result of a served request; the board has none after it.
    pub fn collect(&mut self, board: usize) -> Result<Collected, Refusal>
        ensures answer { got_of result ≡ says (collect board) (world S.Schedule M.LineMemory self.old) }
        ensures after { world S.Schedule M.LineMemory self.new ≡ step (collect board) (world S.Schedule M.LineMemory self.old) }
    {
        let board = self.find_board(board)?;
        let request = self.core.board(board).request.ok_or(Refusal::NoRequest)?;
        let word = request.result().ok_or(Refusal::NotServed)?;
        self.core.free_at(board);
        Ok(Collected {
            word,
            waited: request.waited,
        })
    }

    // One slot: its owner acts for its request or for a write-back.
    pub fn slot(&mut self) -> SlotReport
        ensures answer { report_of result ≡ says slot (world S.Schedule M.LineMemory self.old) }
        ensures after { world S.Schedule M.LineMemory self.new ≡ step slot (world S.Schedule M.LineMemory self.old) }
    {
        let count = self.schedule.boards();
        let owner = self.schedule.next_owner();
        let did = self.core.slot(Turn {
            count,
            owner: Index { at: owner as u8 },
        });
        SlotReport {
            owner,
            deed: did.deed,
            line: did.line.map(|line| line.at as usize),
        }
    }
}
