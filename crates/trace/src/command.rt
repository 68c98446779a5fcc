// A line of a trace: letter, space and the words of the rest.
ghost use Rattle.std.specs.Prelude.{◌≡◌, ◌≤◌, vec_items, IfOk};
ghost use Rattle.std.specs.Option as options;
ghost use Rattle.std.specs.Result.{result_map_both};
ghost use Rattle.trace.specs.Commands.{apart, boards_of, call_order, called, collect_of, fabric_letter, fabric_of, fabric_order, guard_of, list_order, meaning, parts_of, place_of, set_up, slots_of, store_of};
ghost use Rattle.trace.specs.Faults.{Told};

use crate::fault::{LineFault, TraceFault};
use crate::word::{Field, MemoryKind, Word, all_numbers, read_fields, read_words};
use std::alloc::Global;

// What the fabric is made of.
#[derive(Clone, Copy)]
pub struct FabricLine {
    pub boards: u8,
    pub lines: u8,
    pub kind: MemoryKind,
}

// What a line after the opening ones asks for.
#[derive(Clone, Copy)]
pub enum Command {
    Load {
        board: u8,
        line: u8,
    },
    Store {
        board: u8,
        line: u8,
        word: u64,
        key: u16,
    },
    Replace {
        board: u8,
        line: u8,
    },
    Guard {
        line: u8,
        old: u16,
        new: u16,
    },
    Collect {
        board: u8,
    },
    Slots {
        count: u16,
    },
}

// A line taken apart. The letter stays a byte: an unknown one is no fault where a slot list may stand, and an enum of letters would be matched twice.
#[derive(Drop)]
pub(crate) struct Parts {
    letter: u8,
    words: Vec<Word>,
}

// The longest line, without its line end.
const MAX_LINE: usize = 200;

const BOARD: Field = Field { low: 0, high: 255 };

const LINES: Field = Field { low: 1, high: 64 };

const LINE: Field = Field { low: 0, high: 255 };

const WORD: Field = Field {
    low: 0,
    high: u64::MAX,
};

const KEY: Field = Field {
    low: 0,
    high: 65535,
};

const COUNT: Field = Field { low: 1, high: 999 };

fn fabric(words: &[Word]) -> Result<FabricLine, LineFault>
    ensures value { result_map_both set_up (λ e. e) result ≡ fabric_of words.now }
    ensures few { IfOk result (λ f. f.lines ≤ 64) }
{
    let [boards, lines, last] = words else {
        return Err(LineFault::WordCount);
    };
    let Word::Kind(kind) = *last else {
        return Err(LineFault::NotANumber);
    };
    let [boards, lines] = read_fields(&[*boards, *lines], [BOARD, LINES])?;
    Ok(FabricLine {
        boards: boards as u8,
        lines: lines as u8,
        kind,
    })
}

// The board and the line of a load and of a replacement.
fn place(words: &[Word]) -> Result<(u8, u8), LineFault>
    ensures { result ≡ place_of words.now }
{
    let [board, line] = read_fields(words, [BOARD, LINE])?;
    Ok((board as u8, line as u8))
}

fn store(words: &[Word]) -> Result<Command, LineFault>
    ensures { result_map_both meaning (λ e. e) result ≡ store_of words.now }
{
    let [board, line, word, key] = read_fields(words, [BOARD, LINE, WORD, KEY])?;
    Ok(Command::Store {
        board: board as u8,
        line: line as u8,
        word,
        key: key as u16,
    })
}

fn guard(words: &[Word]) -> Result<Command, LineFault>
    ensures { result_map_both meaning (λ e. e) result ≡ guard_of words.now }
{
    let [line, old, new] = read_fields(words, [LINE, KEY, KEY])?;
    Ok(Command::Guard {
        line: line as u8,
        old: old as u16,
        new: new as u16,
    })
}

fn collect(words: &[Word]) -> Result<Command, LineFault>
    ensures { result_map_both meaning (λ e. e) result ≡ collect_of words.now }
{
    let [board] = read_fields(words, [BOARD])?;
    Ok(Command::Collect { board: board as u8 })
}

fn slots(words: &[Word]) -> Result<Command, LineFault>
    ensures { result_map_both meaning (λ e. e) result ≡ slots_of words.now }
{
    let [count] = read_fields(words, [COUNT])?;
    Ok(Command::Slots {
        count: count as u16,
    })
}

// The boards of a slot list, as many as there are words.
fn boards(alloc: Global, words: &[Word]) -> Result<Vec<u8>, TraceFault>
    ensures { Told vec_items result (boards_of words.now) }
{
    if !all_numbers(words) {
        return Err(TraceFault::Line(LineFault::NotANumber));
    }
    // Pushed in a loop: of `try_collect` nothing is known where an item fails.
    let mut list = Vec::new(alloc);
    for word in words {
        let board = BOARD.take(*word)?;
        list.push(board as u8)?;
    }
    Ok(list)
}

// A line, without its line end, as its letter and its words.
#[tactic(auto, unfolding(crate::specs::Commands::apart))]
fn take_apart(alloc: Global, line: &[u8]) -> Result<Parts, TraceFault>
    ensures { Told parts_of result (apart line.now) }
{
    if line.len() > MAX_LINE {
        return Err(TraceFault::Line(LineFault::NoLineEnd));
    }
    match line {
        [letter] => Ok(Parts {
            letter: *letter,
            words: Vec::new(alloc),
        }),
        [letter, b' ', rest @ ..] => Ok(Parts {
            letter: *letter,
            words: read_words(alloc, rest)?,
        }),
        _ => Err(TraceFault::Line(LineFault::Letter)),
    }
}

impl Parts {
    fn fabric(&self) -> Result<FabricLine, LineFault>
        ensures value { result_map_both set_up (λ e. e) result ≡ fabric_letter self.now.letter (vec_items self.now.words) }
        ensures few { IfOk result (λ f. f.lines ≤ 64) }
    {
        match self.letter {
            b'F' => fabric(&self.words),
            _ => Err(LineFault::Letter),
        }
    }

    fn command(&self) -> Result<Command, LineFault>
        ensures { result_map_both meaning (λ e. e) result ≡ called self.now.letter (vec_items self.now.words) }
    {
        let words = &self.words;
        // A `match`, since the letters are known: a table of functions would say no more.
        match self.letter {
            b'L' => place(words).map(|(board, line)| Command::Load { board, line }),
            b'S' => store(words),
            b'R' => place(words).map(|(board, line)| Command::Replace { board, line }),
            b'K' => guard(words),
            b'C' => collect(words),
            b'W' => slots(words),
            _ => Err(LineFault::Letter),
        }
    }
}

// The first line of a trace.
pub fn read_fabric(alloc: Global, line: &[u8]) -> Result<FabricLine, TraceFault>
    ensures value { Told set_up result (fabric_order line.now) }
    ensures few { IfOk result (λ f. f.lines ≤ 64) }
{
    Ok(take_apart(alloc, line)?.fabric()?)
}

// The second line: the boards of a slot list, or none where it is no slot list.
pub fn read_list(alloc: Global, line: &[u8]) -> Result<Option<Vec<u8>>, TraceFault>
    ensures { Told (options.option_map vec_items) result (list_order line.now) }
{
    let parts = take_apart(alloc, line)?;
    if parts.letter != b'O' {
        return Ok(None);
    }
    Ok(Some(boards(alloc, &parts.words)?))
}

// Any later line.
pub fn read_command(alloc: Global, line: &[u8]) -> Result<Command, TraceFault>
    ensures { Told meaning result (call_order line.now) }
{
    Ok(take_apart(alloc, line)?.command()?)
}
