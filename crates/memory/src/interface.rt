// What every line memory promises.
ghost use Rattle.std.specs.Prelude.{◌≡◌, ℕ, ◌≤◌, List};
ghost use Rattle.memory.specs.Interface.{Sound, Replaces, written};

pub const MAX_LINES: usize = 64;

pub trait LineMemory {
    // The line count.
    ghost size: { Self → ℕ };

    // The word of each line, and 0 past the last.
    ghost words: { Self → ℕ → ℕ };

    // The law that every memory keeps, at each of its values.
    ghost sound: { (m : Self) → Sound (size m) (words m) };

    // What lies around the lines, here and in each memory below: no write reaches it.
    ghost around: { Self → List (ℕ → ℕ) };

    // Which loan the words lie in: a lender learns from it what was written.
    ghost lender: { Self → ℕ };

    fn lines(&self) -> usize
        ensures size { result ≡ size self.now }
        ensures few { result ≤ 64 };

    // The word of a line, or 0 past the last.
    fn read(&self, line: usize) -> u64
        ensures word { result ≡ words self.now line }
        ensures blank { size self.now ≤ line → result ≡ 0 };

    // Replaces the word of a line, or does nothing past the last.
    fn write(&mut self, line: usize, word: u64)
        ensures size { size self.new ≡ size self.old }
        ensures words { words self.new ≡ written (size self.old) (words self.old) line word }
        ensures replaces { Replaces (size self.old) (words self.old) (words self.new) line word }
        ensures around { around self.new ≡ around self.old }
        ensures lender { lender self.new ≡ lender self.old };
}
