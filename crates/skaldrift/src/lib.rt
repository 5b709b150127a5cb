// The functions that a desk's firmware calls (include/skaldrift.h; `skaldrift_c` exports them): each
// call of this repository under the name skaldrift_.., thin over the proved call. A slice crosses as
// a pointer and a length, the state as 65 words of 64 bits, an answer as document 01's number, and n,
// m or kept through `report`, which is written only where document 01 reports one. Proved: the number
// and every lent word and byte afterwards, for all inputs, refusals too (`boundary`). Assumed: nothing of
// the caller but what no proof can see, that the slices are there and do not overlap.

#![tactic(auto)]

pub mod example_calls;
pub mod gate_calls;
pub mod log_calls;
pub mod tape_calls;
