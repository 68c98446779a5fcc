// The boards of a fabric, as one slice. Two loops and not one with a closure, whose contract could only relate what each call was given and left.
ghost use Rattle.std.specs.Prelude.{◌≡◌, length};
ghost use Rattle.copystate.specs.States.{holds};
ghost use Rattle.rules.specs.Boards.{ages, moves};
ghost use Rattle.rules.specs.Cells.{below, but_for, each};
ghost use Rattle.fabric.specs.Boards.{boards_of};

use crate::board::Board;
use crate::index::{BoardIndex, LineIndex};
use copystate::events::Event;

// Every board but the sender takes the event of another board.
#[tactic(auto, using(crate::proofs::Loops::each_none, crate::proofs::Loops::each_all))]
pub(crate) fn snoop(boards: &mut [Board], sender: BoardIndex, line: LineIndex, event: Event)
    ensures { boards_of boards.new ≡ each (length boards.old) (but_for sender.at (moves line.at event)) (boards_of boards.old) }
{
    for (number, board) in boards.iter_mut().enumerate() {
        if number != sender.at as usize {
            board.take(line, event);
        }
    }
}

// A slot passes for every board.
#[tactic(auto, using(crate::proofs::Loops::each_none, crate::proofs::Loops::each_all))]
pub(crate) fn age(boards: &mut [Board])
    ensures { boards_of boards.new ≡ each (length boards.old) (λ c. ages) (boards_of boards.old) }
{
    for board in boards.iter_mut() {
        board.age();
    }
}

// Whether one of the boards holds the line.
pub(crate) fn has_holder(boards: &[Board], line: LineIndex) -> bool
    ensures { result ≡ below (length boards.now) (λ c. holds ((boards_of boards.now c).state line.at)) }
{
    boards.iter().any(|board| board.holds(line))
}
