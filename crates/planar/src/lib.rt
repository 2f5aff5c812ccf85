// Geometries of the types 1 to 7, with x and y alone, as data: specs/ has the definitions and laws, and there is no code.
#![tactic(auto)]
