// What is written is what was meant, and comes back: specs/ has the theorems, and there is no code.
#![tactic(auto)]
