// The words of a line, split by one space each, and the numbers that its fields take.
ghost use Rattle.std.specs.Prelude.{◌≡◌, ℕ, ◌<◌, ◌≤◌, map, IfOk, slice_index, slice_index_or};
ghost use Rattle.trace.specs.Words.{word_of, words, in_field, is_number, kind_of, all_numbers, fields_of};

use crate::fault::LineFault;
use crate::number::{NumberFault, read_number};
use std::alloc::{AllocError, Global};

// The kinds of memory that a trace may ask for.
#[derive(Clone, Copy, PartialEq, Eq, Debug)]
pub enum MemoryKind {
    Flat,
    Window,
    Chained,
}

// A byte that is the letter of no memory.
#[derive(Clone, Copy, PartialEq, Eq, Debug)]
pub struct UnknownKind(pub u8);

impl TryFrom<u8> for MemoryKind {
    type Error = UnknownKind;

    ghost try_from_gives = { λ letter r. r ≡ kind_of letter };

    fn try_from(letter: u8) -> Result<Self, UnknownKind> {
        match letter {
            b'A' => Ok(MemoryKind::Flat),
            b'B' => Ok(MemoryKind::Window),
            b'C' => Ok(MemoryKind::Chained),
            _ => Err(UnknownKind(letter)),
        }
    }
}

// What a word is: a number that a field may take, a larger one, the letter of a memory, or none of these.
#[derive(Clone, Copy, PartialEq, Eq, Debug)]
pub(crate) enum Word {
    Other,
    Number(u64),
    Large,
    Kind(MemoryKind),
}

// A field of a line: its numbers go from `low` to `high`.
#[derive(Clone, Copy)]
pub(crate) struct Field {
    pub(crate) low: u64,
    pub(crate) high: u64,
}

// One word by itself.
pub(crate) fn read_word(word: &[u8]) -> Word
    ensures { result ≡ word_of word.now }
{
    if let [letter] = word
        && let Ok(kind) = MemoryKind::try_from(*letter)
    {
        return Word::Kind(kind);
    }
    match read_number(word) {
        Ok(n) => Word::Number(n),
        Err(NumberFault::TooLarge) => Word::Large,
        Err(NumberFault::NotANumber) => Word::Other,
    }
}

// The words of `s`: one more than it has spaces.
pub(crate) fn read_words(alloc: Global, s: &[u8]) -> Result<Vec<Word>, AllocError>
    ensures { IfOk result (λ v. v.items ≡ map word_of (words s.now)) }
{
    s.split(|b| *b == b' ').map(read_word).collect(alloc)
}

impl Word {
    fn is_number(&self) -> bool
        ensures { result ≡ is_number self.now }
    {
        matches!(self, Word::Number(_) | Word::Large)
    }
}

pub(crate) fn all_numbers(words: &[Word]) -> bool
    ensures { result ≡ all_numbers words.now }
{
    words.iter().all(|word| word.is_number())
}

impl Field {
    // The number of a word that lies in the field.
    pub(crate) fn take(self, word: Word) -> Result<u64, LineFault>
        ensures value { result ≡ in_field self word }
        ensures bound { IfOk result (λ n. n ≤ self.high) }
    {
        match word {
            Word::Number(n) if self.low <= n && n <= self.high => Ok(n),
            Word::Number(_) | Word::Large => Err(LineFault::OutOfField),
            Word::Kind(_) | Word::Other => Err(LineFault::NotANumber),
        }
    }
}

// As many numbers as there are fields, each in its own. They share one array, so callers cast each to its type; `bound` proves that no cast loses bits.
#[tactic(auto, unfolding(crate::specs::Words::fields_of))]
pub(crate) fn read_fields<const N: usize>(
    words: &[Word],
    fields: [Field; N],
) -> Result<[u64; N], LineFault>
    ensures value { result ≡ fields_of fields.entry words.now }
    ensures bound { IfOk result (λ ns. (k : ℕ) → k < N → slice_index ns k ≤ (slice_index_or fields.entry k (record { low = 0; high = 0 })).high) }
{
    if words.len() != N {
        return Err(LineFault::WordCount);
    }
    if !all_numbers(words) {
        return Err(LineFault::NotANumber);
    }
    // By index: over a `zip` with `iter_mut` an invariant has no array to speak of, and the proof did not close.
    let mut numbers = [0; N];
    for (i, field) in fields.iter().enumerate() {
        numbers[i] = field.take(words[i])?;
    }
    Ok(numbers)
}
