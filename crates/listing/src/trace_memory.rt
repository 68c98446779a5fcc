// The memory of a trace, of the kind that its first line asks for. An enum that passes each call on, as the schedule of a trace is.
ghost use Rattle.std.specs.Prelude.{◌≡◌, ◌+◌, ◌≤◌, slice_index};
ghost use Rattle.memory.specs.Interface.{upto};
ghost use Rattle.listing.specs.Memories.{memory_around, memory_lender, memory_size, memory_sound, memory_words, start_of};

use memory::flat::FlatMemory;
use memory::interface::LineMemory;
use memory::window::Window;
use trace::word::MemoryKind;

#[derive(Drop)]
pub enum TraceMemory<'a> {
    Flat(FlatMemory<'a>),
    Window(Window<FlatMemory<'a>>),
}

impl<'a> TraceMemory<'a> {
    // So many lines over the words lent to it: the first of them, or in a window the last.
    // Flat memory stands in for chained memory, which is still to come: the listing does not depend on the kind.
    pub(crate) fn over(words: &'a mut [u64; 64], lines: usize, kind: MemoryKind) -> TraceMemory<'a>
        requires { lines ≤ 64 }
        ensures size { memory_size result ≡ lines }
        ensures words { memory_words result ≡ upto lines (λ k. slice_index words.old (start_of kind lines + k)) }
    {
        match kind {
            MemoryKind::Flat | MemoryKind::Chained => {
                TraceMemory::Flat(FlatMemory::over(&mut words[..lines]))
            }
            MemoryKind::Window => {
                TraceMemory::Window(Window::new(FlatMemory::over(words), 64 - lines, lines))
            }
        }
    }
}

impl<'a> LineMemory for TraceMemory<'a> {
    ghost size = { memory_size };

    ghost words = { memory_words };

    ghost sound = { memory_sound };

    ghost around = { memory_around };

    ghost lender = { memory_lender };

    fn lines(&self) -> usize {
        match self {
            TraceMemory::Flat(flat) => flat.lines(),
            TraceMemory::Window(window) => window.lines(),
        }
    }

    fn read(&self, line: usize) -> u64 {
        match self {
            TraceMemory::Flat(flat) => flat.read(line),
            TraceMemory::Window(window) => window.read(line),
        }
    }

    fn write(&mut self, line: usize, word: u64) {
        match self {
            TraceMemory::Flat(flat) => flat.write(line, word),
            TraceMemory::Window(window) => window.write(line, word),
        }
    }
}
