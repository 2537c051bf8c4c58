// Numbers that carry the expression that made them, so that elementary answers may look at it. Definitions and laws only, no code.
#![tactic(auto)]
