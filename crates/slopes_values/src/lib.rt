// Slip 1 of document 02, the values: definitions and laws only, no code.
#![tactic(auto)]
