// The gate's plain engine: it tries every choice number. Proved: its finding and the image that it
// leaves are those of the definitions in `cuts`, for every sound state, write and sheet.
// Assumed: nothing.

#![tactic(auto)]

pub mod count;
pub mod search;
mod trial;
