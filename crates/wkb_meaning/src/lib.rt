// What is read of well-known binary is what it means: specs/ has the theorems, and there is no code.
#![tactic(auto)]
