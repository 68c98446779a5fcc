// The commands of a trace, carried out and listed.
ghost use Rattle.std.specs.Prelude.{◌≡◌, ◌+◌, ◌^◌, ◌<◌, ◌≤◌, ◌++◌, string_bytes, OnOk};
ghost use Rattle.trace.specs.Commands.{call_order, collect, guard, load, meaning, replace, slots, store};
ghost use Rattle.rules.specs.Calls.{says, slot};
ghost use Rattle.listing.specs.Answers.{slot_text};
ghost use Rattle.listing.specs.Beginnings.{stand_from};
ghost use Rattle.listing.specs.Lines.{line_text};
ghost use Rattle.listing.specs.Listing.{after, passed, printed};
ghost use Rattle.listing.specs.Sessions.{Obeyed, stand_of};

use crate::lines::{CallLetter, Line};
use crate::session::Session;
use fabric::answer::{Collected, SlotReport};
use fabric::fabric::Fabric;
use memory::interface::LineMemory;
use schedule::Schedule;
use std::alloc::{AllocError, Global};
use std::fmt::Write;
use trace::command::{Command, read_command};
use trace::fault::TraceFault;

impl<S: Schedule, M: LineMemory> Session<S, M> {
    // A fresh fabric, before its first slot.
    pub(crate) fn new(schedule: S, memory: M) -> Session<S, M>
        ensures stand { stand_of S.Schedule M.LineMemory result ≡ stand_from (M.LineMemory.words memory) (M.LineMemory.size memory) (S.Schedule.owners schedule) (S.Schedule.count schedule) (S.Schedule.span schedule) }
        ensures slot { result.slot ≡ 0 }
    {
        Session {
            fabric: Fabric::new(schedule, memory),
            slot: 0,
        }
    }

    // What happens in the next slot.
    fn pass(&mut self) -> Line
        requires { self.old.slot + 1 < 2 ^ 64 }
        ensures text { line_text result ≡ slot_text self.old.slot (says slot (stand_of S.Schedule M.LineMemory self.old).world) }
        ensures after { stand_of S.Schedule M.LineMemory self.new ≡ passed (stand_of S.Schedule M.LineMemory self.old) }
    {
        let slot = self.slot;
        self.slot = slot + 1;
        let SlotReport { owner, deed, line } = self.fabric.slot();
        match line {
            None => Line::Idle { slot, owner },
            Some(line) => Line::Done {
                slot,
                owner,
                deed,
                line,
            },
        }
    }

    // So many slots, a line of the listing for each.
    fn run(&mut self, count: u16, out: &mut String) -> Result<(), AllocError>
        requires { self.old.slot + count < 2 ^ 64 }
        ensures text { OnOk result (string_bytes out.new ≡ string_bytes out.old ++ printed (slots count) (stand_of S.Schedule M.LineMemory self.old)) }
        ensures after { OnOk result (stand_of S.Schedule M.LineMemory self.new ≡ after (slots count) (stand_of S.Schedule M.LineMemory self.old)) }
        ensures bound { self.new.slot ≤ self.old.slot + count }
    {
        for _ in 0..count {
            write!(out, "{}", self.pass())?;
        }
        Ok(())
    }

    // The counter has room for the slots of any command, as the replay's own bounds show at each call.
    fn carry_out(&mut self, command: Command, out: &mut String) -> Result<(), AllocError>
        requires { self.old.slot + 65535 < 2 ^ 64 }
        ensures text { OnOk result (string_bytes out.new ≡ string_bytes out.old ++ printed (meaning command) (stand_of S.Schedule M.LineMemory self.old)) }
        ensures after { OnOk result (stand_of S.Schedule M.LineMemory self.new ≡ after (meaning command) (stand_of S.Schedule M.LineMemory self.old)) }
        ensures bound { self.new.slot ≤ self.old.slot + 65535 }
    {
        // A `match`, since each command has fields of its own: closures in a table would be no plainer.
        let (call, first, answer) = match command {
            Command::Load { board, line } => {
                let call = CallLetter::Load;
                let answer = self
                    .fabric
                    .load(board as usize, line as usize)
                    .map(|reply| Line::of_reply(call, board, line, reply));
                (call, board, answer)
            }
            Command::Store {
                board,
                line,
                word,
                key,
            } => {
                let call = CallLetter::Store;
                let answer = self
                    .fabric
                    .store(board as usize, line as usize, word, key)
                    .map(|reply| Line::of_reply(call, board, line, reply));
                (call, board, answer)
            }
            Command::Replace { board, line } => {
                let answer = self
                    .fabric
                    .replace(board as usize, line as usize)
                    .map(|()| Line::Replaced { board, line });
                (CallLetter::Replace, board, answer)
            }
            Command::Guard { line, old, new } => {
                let answer = self
                    .fabric
                    .guard(line as usize, old, new)
                    .map(|()| Line::Guarded { line });
                (CallLetter::Guard, line, answer)
            }
            Command::Collect { board } => {
                let answer = self.fabric.collect(board as usize).map(|Collected {
                    word,
                    waited,
                }| Line::Collected {
                    board,
                    word,
                    waited,
                });
                (CallLetter::Collect, board, answer)
            }
            Command::Slots { count } => return self.run(count, out),
        };
        let line = answer.unwrap_or_else(|refusal| Line::Refused {
            call,
            first,
            refusal,
        });
        write!(out, "{line}")
    }

    // Carries out a line, without its line end, and adds what it prints to the text.
    pub(crate) fn obey(
        &mut self,
        alloc: Global,
        line: &[u8],
        out: &mut String,
    ) -> Result<(), TraceFault>
        requires { self.old.slot + 65535 < 2 ^ 64 }
        ensures obeys { Obeyed result (call_order line.now) (stand_of S.Schedule M.LineMemory self.old) (stand_of S.Schedule M.LineMemory self.new) (string_bytes out.old) (string_bytes out.new) }
        ensures bound { self.new.slot ≤ self.old.slot + 65535 }
    {
        let command = read_command(alloc, line)?;
        Ok(self.carry_out(command, out)?)
    }
}
