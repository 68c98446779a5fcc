// What a request shows.
ghost use Rattle.std.specs.Prelude.{◌≡◌, Some};
ghost use Rattle.fabric.specs.Boards.{place_of};
ghost use Rattle.fabric.specs.Requests.{kind_in, line_in, result_in, sent_in, served_in, waited_in};

use crate::board::{Request, Stage};
use rules::kind::Kind;

impl Request {
    pub fn kind(&self) -> Kind
        ensures { kind_in (place_of (Some self.now)) ≡ Some result }
    {
        self.kind
    }

    pub fn line(&self) -> usize
        ensures { line_in (place_of (Some self.now)) ≡ Some result }
    {
        self.line.at as usize
    }

    pub fn is_sent(&self) -> bool
        ensures { result ≡ sent_in (place_of (Some self.now)) }
    {
        !matches!(self.stage, Stage::Posted)
    }

    pub fn is_served(&self) -> bool
        ensures { result ≡ served_in (place_of (Some self.now)) }
    {
        matches!(self.stage, Stage::Served(_))
    }

    // The result, once it is served.
    pub fn result(&self) -> Option<u64>
        ensures { result ≡ result_in (place_of (Some self.now)) }
    {
        match self.stage {
            Stage::Posted | Stage::Sent => None,
            Stage::Served(word) => Some(word),
        }
    }

    // How many slots it has waited.
    pub fn waited(&self) -> u64
        ensures { waited_in (place_of (Some self.now)) ≡ Some result }
    {
        self.waited
    }
}
