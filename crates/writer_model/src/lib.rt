// The writer on lists, and that lent memory stands for it: specs/ has the definitions and theorems, and there is no code.
#![tactic(auto)]
