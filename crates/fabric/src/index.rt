// A number that is known to be below a bound. A byte, so that the rows and lists of a fabric stay small.
ghost use Rattle.std.specs.Prelude.{◌<◌};

#[derive(Clone, Copy, PartialEq, Eq, Debug)]
pub struct Index<const N: usize> {
    pub(crate) at: u8,
    ghost low: { at < N },
}

// Of a board, and of a line.
pub(crate) type BoardIndex = Index<16>;

pub(crate) type LineIndex = Index<64>;
