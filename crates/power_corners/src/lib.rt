// Slip 3 of document 02, exact corners of the power, as one result: definitions and laws only, no code.
#![tactic(auto)]
