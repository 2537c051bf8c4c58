// Document 01's exact values as brackets of fractions: definitions and laws only, no code.
#![tactic(auto)]
