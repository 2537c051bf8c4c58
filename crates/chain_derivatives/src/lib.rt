// Slip 14 of document 02, the chain's slopes are derivatives: definitions and laws only, no code.
#![tactic(auto)]
