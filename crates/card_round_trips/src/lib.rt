// Slips 6 and 11 of document 02, what is promised of cards that are written and moved beside the contracts: laws only, no code.
#![tactic(auto)]
