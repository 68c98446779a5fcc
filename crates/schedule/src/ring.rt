// A place on a ring.
ghost use Rattle.std.specs.Prelude.{◌≡◌, ℕ, ◌<◌};
ghost use Rattle.schedule.specs.Rows.{in_turn, later};
ghost use Rattle.schedule.specs.Rings.{places};

#[derive(Clone, Copy)]
pub(crate) struct Ring {
    place: usize,
    len: usize,
    ghost within: { place < len },
}

impl Ring {
    // The first place of a ring of `len` places.
    #[tactic(auto, using(crate::specs::Rings::from_zero))]
    pub(crate) fn start(len: usize) -> Ring
        requires { 0 < len }
        ensures len { result.len ≡ len }
        ensures row { places result.len result.place ≡ in_turn len }
    {
        Ring { place: 0, len }
    }

    pub(crate) fn len(self) -> usize
        ensures { result ≡ self.len }
    {
        self.len
    }

    // The place, and one place on. A branch: with a division in every slot an idle run took a tenth longer.
    #[tactic(auto, using(crate::specs::Rings::stays, crate::specs::Rings::later_up, crate::specs::Rings::later_round))]
    pub(crate) fn next(&mut self) -> usize
        ensures first { result ≡ places self.old.len self.old.place 0 }
        ensures value { result ≡ self.old.place }
        ensures bound { result < self.old.len }
        ensures rest { places self.new.len self.new.place ≡ later (places self.old.len self.old.place) }
        ensures len { self.new.len ≡ self.old.len }
    {
        let place = self.place;
        self.place = if place + 1 < self.len { place + 1 } else { 0 };
        place
    }
}
