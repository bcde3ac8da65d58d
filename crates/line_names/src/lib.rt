// What is proved of the line's own unit names over the definitions. It has no code of its own.

#![tactic(auto)]
