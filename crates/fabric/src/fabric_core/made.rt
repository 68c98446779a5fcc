// The tables of a fabric just made.
ghost use Rattle.std.specs.Prelude.{◌≡◌};
ghost use Rattle.rules.specs.Calls.{empty};
ghost use Rattle.fabric.specs.Views.{view};

use crate::board::{Board, LineRecord};
use crate::fabric_core::{Core, Line};
use crate::queue::Queue;
use copystate::states::State;
use memory::interface::LineMemory;
use rules::kind::LastDeed;

impl<M: LineMemory> Core<M> {
    #[tactic(auto, using(crate::proofs::Made::new_view))]
    pub(crate) fn new(memory: M) -> Core<M>
        ensures { view M.LineMemory result ≡ empty (M.LineMemory.words memory) (M.LineMemory.size memory) }
    {
        let record = LineRecord {
            state: State::I,
            word: 0,
        };
        let board = Board {
            lines: [record; 64],
            request: None,
            write_backs: Queue::new(),
            last: LastDeed::WriteBack,
            marked: None,
        };
        let line = Line {
            row: Queue::new(),
            key: 0,
        };
        Core {
            boards: [board; 16],
            lines: [line; 64],
            memory,
        }
    }

    pub(crate) fn into_memory(self) -> M
        ensures { result ≡ self.memory }
    {
        let Core {
            boards: _,
            lines: _,
            memory,
        } = self;
        memory
    }
}
