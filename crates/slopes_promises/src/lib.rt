// Slip 1 of document 02 as one result: definitions and laws only, no code.
#![tactic(auto)]
