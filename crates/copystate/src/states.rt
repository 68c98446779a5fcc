// The states of one board's copy of a line, and what a board may do in each.
ghost use Rattle.std.specs.Prelude.{◌≡◌};
ghost use Rattle.copystate.specs.States.{state_code, copies, loads, stores, holds, waits, wants, upgrades, writes_back, modified};

// Stable: I, S, M. The others wait: for data (d), to send an upgrade (w) or to write back (wb);
// a last I or S is what the board goes on to.
#[derive(Clone, Copy, PartialEq, Eq, Debug)]
pub enum State {
    I,
    S,
    M,
    ISd,
    IMd,
    SMw,
    MIwb,
    MSwb,
    IMdI,
    ISdI,
    IMdS,
}

impl State {
    // Every state, in the order of the codes.
    pub const ALL: [State; 11] = [
        State::I,
        State::S,
        State::M,
        State::ISd,
        State::IMd,
        State::SMw,
        State::MIwb,
        State::MSwb,
        State::IMdI,
        State::ISdI,
        State::IMdS,
    ];

    // The state's row in the table: a name for what `as` gives.
    pub fn code(self) -> usize
        ensures { result ≡ state_code self }
    {
        self as usize
    }

    // Each question names its states, and they differ in nothing else: a name says more than a parameter would.

    // Whether the board has the line's word.
    pub fn has_copy(self) -> bool
        ensures { result ≡ copies self }
    {
        matches!(
            self,
            State::S | State::M | State::SMw | State::MIwb | State::MSwb
        )
    }

    // Whether a load is answered at once.
    pub fn load_hits(self) -> bool
        ensures { result ≡ loads self }
    {
        matches!(self, State::S | State::M | State::MIwb | State::MSwb)
    }

    // Whether a store is carried out at once.
    pub fn store_hits(self) -> bool
        ensures { result ≡ stores self }
    {
        self.is_holder()
    }

    // Whether the board's word counts before the memory's.
    pub fn is_holder(self) -> bool
        ensures { result ≡ holds self }
    {
        matches!(self, State::M | State::MIwb | State::MSwb)
    }

    // Whether the board waits for the line's data.
    pub fn is_waiting(self) -> bool
        ensures { result ≡ waits self }
    {
        matches!(
            self,
            State::ISd | State::IMd | State::IMdI | State::ISdI | State::IMdS
        )
    }

    // Whether the board waits for data to write.
    pub fn is_waiting_to_write(self) -> bool
        ensures { result ≡ wants self }
    {
        matches!(self, State::IMd | State::IMdI | State::IMdS)
    }

    // Whether the board has a copy and waits to write it.
    pub fn is_upgrading(self) -> bool
        ensures { result ≡ upgrades self }
    {
        matches!(self, State::SMw)
    }

    // Whether the board is to write its word back to the memory.
    pub fn is_writing_back(self) -> bool
        ensures { result ≡ writes_back self }
    {
        matches!(self, State::MIwb | State::MSwb)
    }

    // Whether the board is the holder and has nothing to write back yet.
    pub fn is_modified(self) -> bool
        ensures { result ≡ modified self }
    {
        matches!(self, State::M)
    }
}
