// One slot.
ghost use Rattle.std.specs.Prelude.{◌≡◌, not};
ghost use Rattle.rules.specs.Boards.{posted};
ghost use Rattle.rules.specs.Cells.{board_at, is_empty};
ghost use Rattle.rules.specs.Slots.{due, first_of, may_upgrade, ready, requests, sends_out, served_too, serves, slot_of, upgrades_to, writes_back};
ghost use Rattle.fabric.specs.Slots.{done};
ghost use Rattle.fabric.specs.Views.{view};

use crate::board::{Request, Stage};
use crate::fabric_core::{Core, Turn};
use crate::index::{BoardIndex, LineIndex};
use copystate::events::Event;
use memory::interface::LineMemory;
use rules::deed::Deed;
use rules::kind::{Kind, LastDeed};

// What was done in a slot, and for which line: a `SlotReport` without the owner, which is the same whatever is done.
#[derive(Clone, Copy)]
pub(crate) struct Did {
    pub(crate) deed: Deed,
    pub(crate) line: Option<LineIndex>,
}

// A request's message: the event of its board, that of the others, and the deed when it is sent alone or served too.
#[derive(Clone, Copy)]
struct Message {
    own: Event,
    heard: Event,
    alone: Deed,
    too: Deed,
}

const GET_S: Message = Message {
    own: Event::SendGetS,
    heard: Event::OtherGetS,
    alone: Deed::GetS,
    too: Deed::GetSServed,
};

const GET_M: Message = Message {
    own: Event::SendGetM,
    heard: Event::OtherGetM,
    alone: Deed::GetM,
    too: Deed::GetMServed,
};

const IDLE: Did = Did {
    deed: Deed::Idle,
    line: None,
};

impl<M: LineMemory> Core<M> {
    // The message goes out, all others hear it, and the board joins the row.
    fn send(&mut self, turn: Turn, request: Request, message: Message)
        ensures { view M.LineMemory self.new ≡ sends_out turn.count turn.owner.at message.own message.heard request.line.at request.kind request.waited (view M.LineMemory self.old) }
    {
        self.snoop_all(turn, request.line, message.heard);
        self.send_at(turn.owner, message.own, request);
        self.join(request.line, turn.owner);
    }

    // The board leaves the row, and its request is served with the memory's word.
    fn serve(&mut self, board: BoardIndex, request: Request)
        ensures { view M.LineMemory self.new ≡ serves board.at request.line.at request.kind request.waited (view M.LineMemory self.old) }
    {
        self.leave(request.line);
        let word = self.read(request.line);
        self.get_at(board, request, word);
    }

    fn upgrade(&mut self, turn: Turn, request: Request, word: u64)
        ensures { view M.LineMemory self.new ≡ upgrades_to turn.count turn.owner.at request.line.at word request.waited (view M.LineMemory self.old) }
    {
        self.snoop_all(turn, request.line, Event::OtherUpg);
        self.lift_at(turn.owner, request, word);
    }

    // First in its row, and the line has no holder.
    fn is_due(&self, turn: Turn, line: LineIndex) -> bool
        ensures { result ≡ due turn.count turn.owner.at line.at (view M.LineMemory self.now) }
    {
        self.is_first(turn.owner, line) && !self.is_held(turn, line)
    }

    fn is_ready(&self, turn: Turn) -> bool
        ensures { result ≡ ready turn.count turn.owner.at (view M.LineMemory self.now) (board_at (view M.LineMemory self.now) turn.owner.at).place }
    {
        self.board(turn.owner)
            .request
            .is_some_and(|request| match request.stage {
                Stage::Posted => true,
                Stage::Sent => self.is_due(turn, request.line),
                Stage::Served(_) => false,
            })
    }

    // A request that is sent, and served at once where it is due.
    fn send_and_serve(&mut self, turn: Turn, request: Request, message: Message) -> Did
        ensures { done result (view M.LineMemory self.new) ≡ served_too turn.count turn.owner.at request.line.at request.kind request.waited message.alone message.too (sends_out turn.count turn.owner.at message.own message.heard request.line.at request.kind request.waited (view M.LineMemory self.old)) }
    {
        self.send(turn, request, message);
        let line = Some(request.line);
        if self.is_due(turn, request.line) {
            self.serve(turn.owner, request);
            return Did {
                deed: message.too,
                line,
            };
        }
        Did {
            deed: message.alone,
            line,
        }
    }

    // A store goes as an upgrade from SMw where no board waits.
    fn may_upgrade(&self, board: BoardIndex, line: LineIndex) -> bool
        ensures { result ≡ may_upgrade board.at line.at (view M.LineMemory self.now) }
    {
        self.board(board).is_ready_to_upgrade(line) && self.is_row_empty(line)
    }

    // A posted request goes out.
    fn issue(&mut self, turn: Turn, request: Request) -> Did
        ensures { done result (view M.LineMemory self.new) ≡ requests turn.count turn.owner.at (view M.LineMemory self.old) (posted request.line.at request.kind request.waited) }
    {
        match request.kind {
            Kind::Load => self.send_and_serve(turn, request, GET_S),
            Kind::Store(word) => {
                if self.may_upgrade(turn.owner, request.line) {
                    self.upgrade(turn, request, word);
                    return Did {
                        deed: Deed::Upg,
                        line: Some(request.line),
                    };
                }
                self.send_and_serve(turn, request, GET_M)
            }
        }
    }

    fn request(&mut self, turn: Turn) -> Did
        ensures { done result (view M.LineMemory self.new) ≡ requests turn.count turn.owner.at (view M.LineMemory self.old) (board_at (view M.LineMemory self.old) turn.owner.at).place }
    {
        let Some(request) = self.board(turn.owner).request else {
            return IDLE;
        };
        match request.stage {
            Stage::Posted => self.issue(turn, request),
            Stage::Sent => {
                self.serve(turn.owner, request);
                Did {
                    deed: Deed::Data,
                    line: Some(request.line),
                }
            }
            Stage::Served(_) => IDLE,
        }
    }

    fn write_back(&mut self, board: BoardIndex) -> Did
        ensures { done result (view M.LineMemory self.new) ≡ writes_back board.at (view M.LineMemory self.old) (first_of (board_at (view M.LineMemory self.old) board.at).list) }
    {
        let Some((line, word)) = self.give_at(board) else {
            return IDLE;
        };
        self.write(line, word);
        Did {
            deed: Deed::PutM,
            line: Some(line),
        }
    }

    fn has_write_back(&self, board: BoardIndex) -> bool
        ensures { result ≡ not (is_empty (board_at (view M.LineMemory self.now) board.at).list) }
    {
        !self.board(board).write_backs.is_empty()
    }

    // Of two that are ready, the one that was not its last deed.
    pub(crate) fn slot(&mut self, turn: Turn) -> Did
        ensures { done result (view M.LineMemory self.new) ≡ slot_of turn.count turn.owner.at (view M.LineMemory self.old) }
    {
        self.age_all(turn);
        let ready = self.is_ready(turn);
        let waits = self.has_write_back(turn.owner);
        let last = self.board(turn.owner).last;
        // All cases in one place, as the rules list them.
        match (ready, waits, last) {
            (true, true, LastDeed::Request) => self.write_back(turn.owner),
            (true, _, _) => self.request(turn),
            (false, true, _) => self.write_back(turn.owner),
            (false, false, _) => IDLE,
        }
    }
}
