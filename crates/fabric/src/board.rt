// What a board holds.
use crate::index::LineIndex;
use crate::queue::Queue;
use copystate::states::State;
use rules::kind::{Kind, LastDeed};

pub(crate) mod deeds;
pub(crate) mod records;
pub mod requests;

// A board's state and word at a line. Without a copy the word is 0, and not none: that is what the rules have a board answer.
#[derive(Clone, Copy)]
pub struct LineRecord {
    pub(crate) state: State,
    pub(crate) word: u64,
}

// How far a request has come.
#[derive(Clone, Copy, PartialEq, Eq, Debug)]
pub(crate) enum Stage {
    Posted,
    Sent,
    // With its result.
    Served(u64),
}

#[derive(Clone, Copy)]
pub struct Request {
    pub(crate) kind: Kind,
    pub(crate) line: LineIndex,
    pub(crate) stage: Stage,
    pub(crate) waited: u64,
}

#[derive(Clone, Copy)]
pub struct Board {
    pub(crate) lines: [LineRecord; 64],
    pub(crate) request: Option<Request>,
    pub(crate) write_backs: Queue<64>,
    pub(crate) last: LastDeed,
    pub(crate) marked: Option<LineIndex>,
}
