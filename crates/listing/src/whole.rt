// A trace listed in one call.
ghost use Rattle.std.specs.Prelude.{◌≡◌, ◌≤◌, ◌++◌, length, drop, IfOk, string_bytes, OnOk};
ghost use Rattle.trace.specs.Pieces.{pieces};
ghost use Rattle.listing.specs.Beginnings.{standing};
ghost use Rattle.listing.specs.Listing.{Stays, listed, listing};

use crate::replay::Replay;
use crate::setup::Setup;
use std::alloc::{AllocError, Global};

// What follows the first lines. In a function of its own, since the room for a replay is cleared where it begins.
fn list_setup(
    alloc: Global,
    trace: &[u8],
    setup: &Setup,
    out: &mut String,
) -> Result<(), AllocError>
    ensures { OnOk result ((length trace.now ≤ 32768 → string_bytes out.new ≡ string_bytes out.old ++ listed setup.now.line (standing setup.now) (pieces 10 (drop setup.now.used trace.now)))) }
{
    let mut words = [0; 64];
    let mut replay = Replay::new(trace, setup, setup.schedule(), setup.memory(&mut words));
    replay.finish(alloc, out)
}

// The whole listing of a trace.
pub fn list_trace(alloc: Global, trace: &[u8]) -> Result<String, AllocError>
    ensures text { IfOk result (λ s. string_bytes s ≡ listing trace.now) }
    ensures law { IfOk result (λ s. Stays trace.now (string_bytes s)) }
{
    let mut text = String::new(alloc);
    let Some(setup) = Setup::read(alloc, trace, &mut text)? else {
        return Ok(text);
    };
    list_setup(alloc, trace, &setup, &mut text)?;
    Ok(text)
}
