// The published format: what a tree of records and property bytes mean, and that the calls keep it.
// specs/ has the definitions and theorems, and there is no code.
#![tactic(auto)]
