// What a board does for its request and its write-backs.
ghost use Rattle.std.specs.Prelude.{◌≡◌, not};
ghost use Rattle.copystate.specs.States.{holds, upgrades};
ghost use Rattle.rules.specs.Boards.{ages, free, gets, lifts, placed, posts, replaces, result_of, sends};
ghost use Rattle.rules.specs.Calls.{is_free};
ghost use Rattle.rules.specs.Slots.{first_of};
ghost use Rattle.fabric.specs.Boards.{board_of};
ghost use Rattle.fabric.specs.Deeds.{given, given_at, gives_first, unmarks};

use crate::board::{Board, Request, Stage};
use crate::index::LineIndex;
use copystate::events::Event;
use rules::kind::{Kind, LastDeed};

// The result of a request that is served with the memory's word.
fn result_of(kind: Kind, word: u64) -> u64
    ensures { result ≡ result_of kind word }
{
    match kind {
        Kind::Load => word,
        Kind::Store(own) => own,
    }
}

impl Board {
    // A request that is posted unsent.
    pub(crate) fn post(&mut self, line: LineIndex, kind: Kind)
        ensures { board_of self.new ≡ posts line.at kind (board_of self.old) }
    {
        if matches!(kind, Kind::Store(_)) {
            self.take(line, Event::PostStore);
        }
        self.request = Some(Request {
            kind,
            line,
            stage: Stage::Posted,
            waited: 0,
        });
    }

    // Its own message goes out, and the request waits. The request is handed over, here and below, so that the contract can name its parts.
    pub(crate) fn send(&mut self, event: Event, request: Request)
        ensures { board_of self.new ≡ sends event request.line.at request.kind request.waited (board_of self.old) }
    {
        self.take(request.line, event);
        self.request = Some(Request {
            stage: Stage::Sent,
            ..request
        });
        self.last = LastDeed::Request;
    }

    // Its request is served with the memory's word.
    pub(crate) fn get(&mut self, request: Request, word: u64)
        ensures { board_of self.new ≡ gets request.line.at request.kind request.waited word (board_of self.old) }
    {
        let result = result_of(request.kind, word);
        self.lay(request.line, Event::OwnData, result);
        self.request = Some(Request {
            stage: Stage::Served(result),
            ..request
        });
        self.last = LastDeed::Request;
    }

    // Its store of the word is served by an upgrade.
    pub(crate) fn lift(&mut self, request: Request, word: u64)
        ensures { board_of self.new ≡ lifts request.line.at word request.waited (board_of self.old) }
    {
        self.lay(request.line, Event::OwnUpg, word);
        self.request = Some(Request {
            kind: Kind::Store(word),
            stage: Stage::Served(word),
            ..request
        });
        self.last = LastDeed::Request;
    }

    // A slot passes: an unserved request has waited one more.
    pub(crate) fn age(&mut self)
        ensures { board_of self.new ≡ ages (board_of self.old) }
    {
        if let Some(request) = self.request
            && !request.is_served()
        {
            self.request = Some(Request {
                waited: request.waited.saturating_add(1),
                ..request
            });
        }
    }

    // Its oldest write-back: the line, and the word for the memory.
    pub(crate) fn give(&mut self) -> Option<(LineIndex, u64)>
        ensures value { given_at result ≡ given (first_of (board_of self.old).list) (board_of self.old) }
        ensures after { board_of self.new ≡ gives_first (first_of (board_of self.old).list) (board_of self.old) }
    {
        let line = self.write_backs.pop()?;
        let word = self.word_at(line);
        self.take(line, Event::OwnPutM);
        self.last = LastDeed::WriteBack;
        self.unmark(line);
        Some((line, word))
    }

    fn unmark(&mut self, line: LineIndex)
        ensures { board_of self.new ≡ unmarks line.at (board_of self.old) }
    {
        if self.marked == Some(line) {
            self.marked = None;
        }
    }

    // It replaces a line; out of M the line is its marked replacement.
    pub(crate) fn replace(&mut self, line: LineIndex)
        ensures { board_of self.new ≡ replaces line.at (board_of self.old) }
    {
        let modified = self.state_at(line).is_modified();
        self.take(line, Event::Replace);
        if modified {
            self.marked = Some(line);
        }
    }

    pub(crate) fn is_ready_to_upgrade(&self, line: LineIndex) -> bool
        ensures { result ≡ upgrades ((board_of self.now).state line.at) }
    {
        self.state_at(line).is_upgrading()
    }

    pub(crate) fn holds(&self, line: LineIndex) -> bool
        ensures { result ≡ holds ((board_of self.now).state line.at) }
    {
        self.state_at(line).is_holder()
    }

    // Its request is collected.
    pub(crate) fn clear(&mut self)
        ensures { board_of self.new ≡ placed free (board_of self.old) }
    {
        self.request = None;
    }

    #[tactic(auto, using(crate::proofs::Tables::request_place))]
    pub(crate) fn has_request(&self) -> bool
        ensures { result ≡ not (is_free (board_of self.now).place) }
    {
        self.request.is_some()
    }
}
