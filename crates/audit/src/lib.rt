// No code, and nothing stands on this crate: what a reader who doubts the rest may ask for. Clauses of
// the original that follow from what is promised here (docs/CONTRACTS.md names them), the proofs that
// no promise leaves a choice (docs/PINNED.md has the table), and histories of the desk kept to the byte
// by computation, one that is a session and one that breaks each of its premises. Nothing is assumed.

#![tactic(auto)]
