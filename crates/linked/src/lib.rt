// No code: a run of the functions that a desk links is a run of the library's calls, so that its
// theorems hold of them. `boundary` has what the functions promise, `skaldrift` the functions.

#![tactic(auto)]
