// A window: some of the lines of another memory.
ghost use Rattle.std.specs.Prelude.{◌≡◌, ◌+◌, ◌<◌};
ghost use Rattle.std.specs.Option.{SomeIff};
ghost use Rattle.memory.specs.Interface.{Replaces, written};
ghost use Rattle.memory.specs.Sound.{window_sound};
ghost use Rattle.memory.specs.Window.{Shows, Spares, reach, size_of, words_of, around_of};

use crate::interface::LineMemory;

// Line k of the window is line `start + k` below, as far as `count` and the memory below reach.
#[derive(Drop)]
pub struct Window<M: LineMemory> {
    below: M,
    start: usize,
    count: usize,
}

impl<M: LineMemory> Window<M> {
    // A window of at most `count` lines; no start and no count is refused.
    pub fn new(below: M, start: usize, count: usize) -> Window<M>
        ensures parts { result ≡ record { below = below; start = start; count = count } }
        ensures shows { Shows start count (M.LineMemory.size below) (M.LineMemory.words below) (size_of M.LineMemory result) (words_of M.LineMemory result) }
    {
        Window {
            below,
            start,
            count,
        }
    }

    // The memory below, with what was written.
    pub fn into_inner(self) -> M
        ensures below { result ≡ self.below }
        ensures shows { Shows self.start self.count (M.LineMemory.size result) (M.LineMemory.words result) (size_of M.LineMemory self) (words_of M.LineMemory self) }
    {
        let Window {
            below,
            start: _,
            count: _,
        } = self;
        below
    }

    // The line below that a line of the window shows.
    fn place(&self, line: usize) -> Option<usize>
        ensures { SomeIff result (line < size_of M.LineMemory self.now) (self.now.start + line) }
    {
        if line < self.lines() {
            Some(self.start + line)
        } else {
            None
        }
    }
}

// How many lines a window has onto `lines` lines.
fn lines_in(lines: usize, start: usize, count: usize) -> usize
    ensures { result ≡ reach lines start count }
{
    count.min(lines.saturating_sub(start))
}

impl<M: LineMemory> LineMemory for Window<M> {
    ghost size = { λ w. size_of M.LineMemory w };

    ghost words = { λ w. words_of M.LineMemory w };

    ghost sound = { λ w. window_sound (M.LineMemory.size w.below) (M.LineMemory.words w.below) w.start w.count (M.LineMemory.sound w.below) };

    ghost around = { λ w. around_of M.LineMemory w };

    ghost lender = { λ w. M.LineMemory.lender w.below };

    fn lines(&self) -> usize {
        lines_in(self.below.lines(), self.start, self.count)
    }

    fn read(&self, line: usize) -> u64 {
        match self.place(line) {
            Some(place) => self.below.read(place),
            None => 0,
        }
    }

    fn write(&mut self, line: usize, word: u64)
        ensures size { size_of M.LineMemory self.new ≡ size_of M.LineMemory self.old }
        ensures words { words_of M.LineMemory self.new ≡ written (size_of M.LineMemory self.old) (words_of M.LineMemory self.old) line word }
        ensures replaces { Replaces (size_of M.LineMemory self.old) (words_of M.LineMemory self.old) (words_of M.LineMemory self.new) line word }
        ensures around { around_of M.LineMemory self.new ≡ around_of M.LineMemory self.old }
        ensures lender { M.LineMemory.lender self.new.below ≡ M.LineMemory.lender self.old.below }
        ensures stays { (self.new.start ≡ self.old.start) × (self.new.count ≡ self.old.count) }
        ensures lines_below { M.LineMemory.size self.new.below ≡ M.LineMemory.size self.old.below }
        ensures below { Replaces (self.old.start + size_of M.LineMemory self.old) (M.LineMemory.words self.old.below) (M.LineMemory.words self.new.below) (self.old.start + line) word }
        ensures spares { Spares self.old.start self.old.count (M.LineMemory.words self.old.below) (M.LineMemory.words self.new.below) }
    {
        if let Some(place) = self.place(line) {
            self.below.write(place, word);
        }
    }
}
