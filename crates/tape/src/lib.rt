// The calls by tape: the future of the log, foretold. An epoch's header says whether a flush or a
// cut will end it, and its rows what a cut will keep, so that after every call the predicted image
// is there. Each call is total on any bytes and proved to answer and leave behind exactly what
// specs/ says (document 01, "The tape", with the prophecy view of pmem_async_equiv_v.rs). Nothing is
// assumed.

#![tactic(auto)]

mod ending;
pub mod tape_cut;
pub mod tape_flush;
pub mod tape_write;
