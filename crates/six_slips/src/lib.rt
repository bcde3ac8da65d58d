// What is proved of the six numbers that stand in the place of 2, over the definitions. It has no code of its own.

#![tactic(auto)]
