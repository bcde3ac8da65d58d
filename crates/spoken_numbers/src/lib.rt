// What is proved of spoken numbers over the definitions. It has no code of its own.

#![tactic(auto)]
