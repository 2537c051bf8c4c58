// Document 01's table to be proved, as one result: definitions and laws only, no code.
#![tactic(auto)]
