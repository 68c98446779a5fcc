// Flat memory: lines that lie over the caller's words.
ghost use Rattle.std.specs.Prelude.{◌≡◌, ◌≤◌, min};
ghost use Rattle.memory.specs.Interface.{Replaces, written};
ghost use Rattle.memory.specs.Flat.{Lies, counted, lined, past, stored};
ghost use Rattle.memory.specs.Sound.{flat_sound};

use crate::interface::{LineMemory, MAX_LINES};

// Its lines are the first 64 of the words lent to it, or all if there are fewer.
#[derive(Drop)]
pub struct FlatMemory<'a> {
    words: &'a mut [u64],
}

impl<'a> FlatMemory<'a> {
    // A memory that starts with the words lent to it.
    pub fn over(words: &'a mut [u64]) -> FlatMemory<'a>
        ensures words { result.words.now ≡ words.old }
        ensures lent { result.words.ghost_name ≡ words.entry.ghost_name }
        ensures lies { Lies words.old (counted result.words.now) (lined result.words.now) }
    {
        FlatMemory { words }
    }

    // All the words, with what was written.
    pub fn as_words(&self) -> &[u64]
        ensures words { result.now ≡ self.now.words.now }
        ensures lies { Lies result.now (counted self.now.words.now) (lined self.now.words.now) }
    {
        self.words
    }

    // The loan back, with what was written.
    pub fn into_words(self) -> &'a mut [u64]
        ensures words { result.now ≡ self.entry.words.now }
        ensures lies { Lies result.now (counted self.entry.words.now) (lined self.entry.words.now) }
    {
        let FlatMemory { words } = self;
        words
    }
}

// How many of `count` words are lines.
fn lines_of(count: usize) -> usize
    ensures { result ≡ min 64 count }
{
    count.min(MAX_LINES)
}

fn word_at(words: &[u64], line: usize) -> u64
    ensures word { result ≡ lined words.now line }
    ensures blank { counted words.now ≤ line → result ≡ 0 }
{
    if line < lines_of(words.len()) {
        words[line]
    } else {
        0
    }
}

fn store(words: &mut [u64], line: usize, word: u64)
    ensures size { counted words.new ≡ counted words.old }
    ensures words { lined words.new ≡ written (counted words.old) (lined words.old) line word }
    ensures replaces { Replaces (counted words.old) (lined words.old) (lined words.new) line word }
    ensures past { past words.new ≡ past words.old }
    ensures stored { words.new ≡ stored words.old line word }
{
    if line < lines_of(words.len()) {
        words[line] = word;
    }
}

impl<'a> LineMemory for FlatMemory<'a> {
    ghost size = { λ m. counted m.words.now };

    ghost words = { λ m. lined m.words.now };

    ghost sound = { λ m. flat_sound m.words.now };

    ghost around = { λ m. past m.words.now };

    ghost lender = { λ m. m.words.ghost_name };

    fn lines(&self) -> usize {
        lines_of(self.words.len())
    }

    fn read(&self, line: usize) -> u64 {
        word_at(self.words, line)
    }

    fn write(&mut self, line: usize, word: u64)
        ensures size { counted self.new.words.now ≡ counted self.old.words.now }
        ensures words { lined self.new.words.now ≡ written (counted self.old.words.now) (lined self.old.words.now) line word }
        ensures replaces { Replaces (counted self.old.words.now) (lined self.old.words.now) (lined self.new.words.now) line word }
        ensures around { past self.new.words.now ≡ past self.old.words.now }
        ensures lender { self.new.words.ghost_name ≡ self.old.words.ghost_name }
        ensures stored { self.new.words.now ≡ stored self.old.words.now line word }
    {
        store(self.words, line, word);
    }
}
