// The memory of a desk: the state, whose records are the outstanding writes. `checked` is the test that
// every call makes of the state that it is lent, `room` and `push` are a write's. Each is proved to give
// exactly what specs/ says (document 01, "Region, chunks, log"). Nothing is assumed.
//
// State, image and log buffer go together, as `Desk` in the definitions; in the code they stay three. A
// write is lent the image to read and the log to change, a flush the other way round: one struct would ask
// every caller for all of them to change, which C's header doesn't.

#![tactic(auto)]

pub mod room;
pub mod state;
