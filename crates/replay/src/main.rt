// Reads a trace from standard input, and writes its listing.
#![tactic(auto)]

use listing::replay::Replay;
use listing::setup::Setup;
use listing::setup::reading::MAX_TRACE;
use std::io;
use std::io::Read;

// One byte more than a trace may have.
const ENOUGH: u64 = MAX_TRACE as u64 + 1;

// Text is written once there is this much of it.
const CHUNK: usize = 16384;

// What follows the first lines. In a function of its own, since the room for a replay is cleared where it begins.
fn play(rt: HostRuntime, trace: &[u8], setup: &Setup) -> io::Result<()> {
    let alloc = rt.alloc();
    let mut text = String::new(alloc);
    let mut words = [0; 64];
    let mut replay = Replay::new(trace, setup, setup.schedule(), setup.memory(&mut words));
    while replay.step(alloc, &mut text)? {
        if text.len() >= CHUNK {
            rt.write_all(text.as_bytes())?;
            text.clear();
        }
    }
    rt.write_all(text.as_bytes())
}

fn main(rt: HostRuntime) -> io::Result<()> {
    let alloc = rt.alloc();
    let mut trace = Vec::new(alloc);
    rt.stdin().take(ENOUGH).read_to_end(&mut trace)?;
    let mut text = String::new(alloc);
    let Some(setup) = Setup::read(alloc, trace.as_slice(), &mut text)? else {
        return rt.write_all(text.as_bytes());
    };
    play(rt, trace.as_slice(), &setup)
}
