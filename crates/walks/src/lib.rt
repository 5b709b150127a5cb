// The walks over a desk's log, oldest write first: whole replay, selective replay and the kept count.
// Each is proved to give exactly what specs/ says (document 01, "Region, chunks, log"). Nothing is
// assumed.
//
// A replay is recursive, one write falling away at each step. The two here and the engine's differ in how
// a write is laid, and each has the shape of its own definition.

#![tactic(auto)]

pub mod kept_count;
pub mod selected;
pub mod whole;
