// The schedule of a trace: round robin, or its slot list. An enum that passes each call on: the first lines choose, and nothing after them has to.
ghost use Rattle.listing.specs.Bus.{bus_count, bus_lawful, bus_owners, bus_span};

use schedule::Schedule;
use schedule::round_robin::RoundRobin;
use schedule::slot_list::SlotList;

#[derive(Clone, Copy)]
pub enum BusSchedule {
    InTurn(RoundRobin),
    Listed(SlotList),
}

impl Schedule for BusSchedule {
    ghost count = { bus_count };

    ghost span = { bus_span };

    ghost owners = { bus_owners };

    ghost lawful = { bus_lawful };

    fn boards(&self) -> usize {
        match self {
            BusSchedule::InTurn(round) => round.boards(),
            BusSchedule::Listed(list) => list.boards(),
        }
    }

    fn period(&self) -> usize {
        match self {
            BusSchedule::InTurn(round) => round.period(),
            BusSchedule::Listed(list) => list.period(),
        }
    }

    fn next_owner(&mut self) -> usize {
        match self {
            BusSchedule::InTurn(round) => round.next_owner(),
            BusSchedule::Listed(list) => list.next_owner(),
        }
    }
}
