// What a request asks for, and what a board did last.
ghost use Rattle.std.specs.Prelude.{◌≡◌};
ghost use Rattle.rules.specs.Claims.{access_of};

// A load, or a store with its word.
#[derive(Clone, Copy, PartialEq, Eq, Debug)]
pub enum Kind {
    Load,
    Store(u64),
}

// A load or a store, whatever its word.
#[derive(Clone, Copy, PartialEq, Eq, Debug)]
pub enum Access {
    Load,
    Store,
}

impl Kind {
    // What it asks for, without the word.
    pub fn access(self) -> Access
        ensures { result ≡ access_of self }
    {
        Access::from(self)
    }
}

impl From<Kind> for Access {
    ghost from_gives = { λ k r. r ≡ access_of k };

    fn from(kind: Kind) -> Access {
        match kind {
            Kind::Load => Access::Load,
            Kind::Store(_) => Access::Store,
        }
    }
}

#[derive(Clone, Copy, PartialEq, Eq, Debug)]
pub enum LastDeed {
    WriteBack,
    Request,
}
