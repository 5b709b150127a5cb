// The example application of power_sound_t.rs: one byte of the image is always val0 or val1. `setup`
// makes it val0; `run` opens the image under the sheet that says so and writes the two values through
// the gate, round after round. Proved: each answer and every lent byte afterwards, for all inputs, as
// specs/ says; after a good opening no call refuses. Assumed: nothing.

#![tactic(auto)]

// "12: example: more than 1000 rounds"
pub const ROUNDS_LIMIT: u64 = 1000;

pub mod run;
pub mod setup;
