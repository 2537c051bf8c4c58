// Slip 2 of document 02, what is promised of the fuel card beside the contracts: laws only, no code.
#![tactic(auto)]
