// The calls of a round robin.
ghost use Rattle.std.specs.Prelude.{◌≡◌, ℕ, ◌+◌, ◌<◌, ◌≤◌, IfOk, MatchResult};
ghost use Rattle.std.specs.Result.{result_err};
ghost use Rattle.schedule.specs.Numbers.{number};
ghost use Rattle.schedule.specs.Rows.{in_turn, later};
ghost use Rattle.schedule.specs.Lists.{BadCount, count_refusal};
ghost use Rattle.schedule.specs.Meanings.{round_count, round_owners};
ghost use Rattle.schedule.specs.Laws.{round_robin_lawful};

use crate::Schedule;
use crate::refusal::{ScheduleRefusal, test_count};
use crate::ring::Ring;
use crate::round_robin::RoundRobin;

impl RoundRobin {
    // Boards 0 to `boards` - 1 in turn, from board 0 on.
    pub fn new(boards: usize) -> Result<RoundRobin, ScheduleRefusal>
        ensures refuses { result_err result ≡ count_refusal boards }
        ensures first { MatchResult result (λ _. (BadCount boards → ⊥)) (λ e. (number e ≡ 1) × BadCount boards) }
        ensures after { IfOk result (λ s. (round_count s ≡ boards) × (round_owners s ≡ in_turn boards)) }
    {
        test_count(boards)?;
        Ok(RoundRobin::of(boards))
    }

    #[tactic(auto, unfolding(crate::specs::Meanings::round_owners))]
    fn of(boards: usize) -> RoundRobin
        requires { (0 < boards) × (boards ≤ 16) }
        ensures { (round_count result ≡ boards) × (round_owners result ≡ in_turn boards) }
    {
        RoundRobin {
            ring: Ring::start(boards),
        }
    }
}

impl Schedule for RoundRobin {
    ghost count = { round_count };

    ghost span = { round_count };

    ghost owners = { round_owners };

    ghost lawful = { round_robin_lawful };

    fn boards(&self) -> usize {
        self.ring.len()
    }

    fn period(&self) -> usize {
        self.ring.len()
    }

    #[tactic(auto, unfolding(crate::specs::Meanings::round_owners))]
    fn next_owner(&mut self) -> usize {
        self.ring.next()
    }
}
