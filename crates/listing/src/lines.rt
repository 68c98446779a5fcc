// The lines of a listing.
ghost use Rattle.std.specs.Prelude.{◌≡◌, Some};
ghost use Rattle.fabric.specs.Worlds.{reply_of};
ghost use Rattle.listing.specs.Answers.{answer_text};
ghost use Rattle.listing.specs.Lines.{letter_of, line_text};

use fabric::answer::Reply;
use rules::deed::Deed;
use rules::refusal::Refusal;
use std::fmt;
use trace::fault::LineFault;

// The call that a line of the listing tells of, by its letter.
#[derive(Clone, Copy)]
pub(crate) enum CallLetter {
    Load,
    Store,
    Replace,
    Guard,
    Collect,
}

#[derive(Clone, Copy)]
pub(crate) enum Line {
    // A slot in which nothing is done.
    Idle {
        slot: u64,
        owner: usize,
    },
    // A slot with a deed on a line.
    Done {
        slot: u64,
        owner: usize,
        deed: Deed,
        line: usize,
    },
    // A load or store that is posted.
    Wait {
        call: CallLetter,
        board: u8,
        line: u8,
    },
    // A load or store that the copy answers, with the word of it.
    Hit {
        call: CallLetter,
        board: u8,
        line: u8,
        word: u64,
    },
    // A replacement that is accepted.
    Replaced {
        board: u8,
        line: u8,
    },
    // A guard that is accepted.
    Guarded {
        line: u8,
    },
    // A request that is collected: its result and its waited count.
    Collected {
        board: u8,
        word: u64,
        waited: u64,
    },
    // A call that is rejected, with the first number of its line.
    Refused {
        call: CallLetter,
        first: u8,
        refusal: Refusal,
    },
    // The fault of a line of the trace.
    Fault {
        line: u32,
        fault: LineFault,
    },
    // A trace that is too long to be read.
    TooLong,
}

impl fmt::Display for CallLetter {
    ghost output = { λ c. Some (letter_of c) };

    fn fmt<W: fmt::Write>(&self, f: &mut fmt::Formatter<W>) -> fmt::Result {
        f.write_str(match self {
            CallLetter::Load => "L",
            CallLetter::Store => "S",
            CallLetter::Replace => "R",
            CallLetter::Guard => "K",
            CallLetter::Collect => "C",
        })
    }
}

impl fmt::Display for Line {
    ghost output = { λ l. Some (line_text l) };

    fn fmt<W: fmt::Write>(&self, f: &mut fmt::Formatter<W>) -> fmt::Result {
        // The fields are passed where they lie: a name in a format is a local, and all locals are cleared at entry.
        match self {
            Line::Idle { slot, owner } => writeln!(f, "{} {} idle -", *slot, *owner),
            Line::Done {
                slot,
                owner,
                deed,
                line,
            } => writeln!(f, "{} {} {} {}", *slot, *owner, *deed, *line),
            Line::Wait { call, board, line } => writeln!(f, "{} {} {} wait", *call, *board, *line),
            Line::Hit {
                call,
                board,
                line,
                word,
            } => writeln!(f, "{} {} {} hit {}", *call, *board, *line, *word),
            Line::Replaced { board, line } => writeln!(f, "R {} {} ok", *board, *line),
            Line::Guarded { line } => writeln!(f, "K {} ok", *line),
            Line::Collected {
                board,
                word,
                waited,
            } => writeln!(f, "C {} {} {}", *board, *word, *waited),
            Line::Refused {
                call,
                first,
                refusal,
            } => writeln!(f, "{} {} refused {}", *call, *first, *refusal),
            Line::Fault { line, fault } => writeln!(f, "fault {} {}", *line, *fault),
            Line::TooLong => writeln!(f, "fault 0 7"),
        }
    }
}

impl Line {
    // The answer of a load or a store that is accepted.
    pub(crate) fn of_reply(call: CallLetter, board: u8, line: u8, reply: Reply) -> Line
        ensures { line_text result ≡ answer_text call board line (reply_of reply) }
    {
        match reply {
            None => Line::Wait { call, board, line },
            Some(word) => Line::Hit {
                call,
                board,
                line,
                word,
            },
        }
    }
}
