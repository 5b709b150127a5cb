// The region and its log: plain write, read, flush and cut, each total on any bytes and proved to
// answer and leave behind exactly what specs/ says (document 01, with the definitions of
// pmem_async_spec_t.rs). The state is checked at every call. Nothing is assumed.

#![tactic(auto)]

pub mod cut;
pub mod flush;
pub mod read;
pub mod write;
