// Which images a power cut could leave, and what a search among them finds and means, whatever engine makes it: definitions and laws alone, over those
// of `region` and `pieces`. There is no code here, and nothing is assumed.

#![tactic(auto)]
