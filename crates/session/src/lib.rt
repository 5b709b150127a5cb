// The session: what any run of the calls keeps, proved from the promises that the calls are proved to keep. There is no code here, and nothing is
// assumed. The theorem is stated in specs/Theorem.antt, for a session by tape in specs/TapeTheorem.antt.

#![tactic(auto)]
