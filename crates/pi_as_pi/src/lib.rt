// Slip 7 of document 02, pi as pi: that the ends of the constants enclose them, pi's from a series of fractions. Definitions and laws only, no code.
#![tactic(auto)]
