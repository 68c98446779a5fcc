// What the calls answer.
use rules::deed::Deed;

// The word of a load or store that hits, or none: its request is posted.
pub type Reply = Option<u64>;

// The result and the waited count of a request that is taken back.
#[derive(Clone, Copy, PartialEq, Eq, Debug)]
pub struct Collected {
    pub word: u64,
    pub waited: u64,
}

// What happened in a slot. A slot in which nothing is done has no line and the deed "idle": the rules give it both.
#[derive(Clone, Copy, PartialEq, Eq, Debug)]
pub struct SlotReport {
    pub owner: usize,
    pub deed: Deed,
    pub line: Option<usize>,
}
