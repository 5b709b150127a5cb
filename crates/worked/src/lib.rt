// No code: calls of a desk worked through by computation, for the runs that `session`, `linked` and `audit` make of them. Nothing is assumed.

#![tactic(auto)]
