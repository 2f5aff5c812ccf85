// Geometries as data, and the events that tell of them: specs/ has the definitions and laws, and there is no code.
#![tactic(auto)]
