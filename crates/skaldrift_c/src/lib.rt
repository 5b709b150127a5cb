// The archive that a desk's firmware links (include/skaldrift.h): one export for each function of
// `skaldrift`, which does the work, under the same name and with the same clauses. A slice crosses as
// a pointer and a length. Proved: the clauses. Assumed: nothing of the caller but what no proof can
// see, that the slices are there and do not overlap.

#![tactic(auto)]

pub mod example_calls;
pub mod gate_calls;
pub mod log_calls;
pub mod tape_calls;
