// Runs document 01's desk trials through the calls and prints what they answer and leave behind;
// the file stdout beside src/ has what document 01 says. The starred trials are proved besides, of
// the definitions (proofs/Starred.antt). Assumed: only the C functions that write and that say why a
// write failed.

#![tactic(auto)]

mod gate_trials;
mod log_trials;
mod long_sheets;
mod print;
mod small;
mod tape_trials;
mod viewer_trials;

use std::io;

// A line that cannot be written ends the run with that error.
fn main(rt: HostRuntime) -> io::Result<()> {
    viewer_trials::run(&rt)?;
    log_trials::run(&rt)?;
    gate_trials::run(&rt)?;
    tape_trials::run(&rt)
}
