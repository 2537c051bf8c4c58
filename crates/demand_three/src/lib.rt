// Demand 3 whole: what the two ends of every operation enclose. Definitions and laws only, no code.
#![tactic(auto)]
