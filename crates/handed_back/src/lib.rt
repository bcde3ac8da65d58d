// What an entry hands back for the text that it reads, over the definitions. It has no code of its own.

#![tactic(auto)]
