// Replays a stored sample of the second program's answers: for each function of the library a call
// that is done and one that its last refusal meets. The sources ending in _sample and the file stdout
// are written by peer/src/bin/sample.rs. Assumed: only the C functions that write and that say why a
// write failed.

#![tactic(auto)]

mod example_sample;
mod fill;
mod gate_sample;
mod log_sample;
mod print;
mod tape_sample;

use std::io;

// A line that cannot be written ends the run with that error.
fn main(rt: HostRuntime) -> io::Result<()> {
    log_sample::replay(&rt)?;
    gate_sample::replay(&rt)?;
    tape_sample::replay(&rt)?;
    example_sample::replay(&rt)
}
