// No tree that reads to a geometry's events is smaller than the one that is written: specs/ has the definitions and theorems, and there is no code.
#![tactic(auto)]
