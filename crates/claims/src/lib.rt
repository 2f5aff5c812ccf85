// What is claimed of the whole: demand 3 over calls, the examples of SPEC 12, one outcome for each call, and what is ruled out.
// specs/ has the theorems, and there is no code.
#![tactic(auto)]
