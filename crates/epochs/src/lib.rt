// How a tape is read, and what it foretells. An epoch's header says whether a flush or a cut will end
// it, and its rows what a cut will keep. Each function meets a definition of specs/ (document 01, "The
// tape", with the prophecy view of pmem_async_equiv_v.rs). Nothing is assumed.

#![tactic(auto)]

pub mod epoch;
pub mod predict;
