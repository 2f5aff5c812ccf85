// Theorems only: property bytes written and read back, and the examples of SPEC 12.3.
#![tactic(auto)]
