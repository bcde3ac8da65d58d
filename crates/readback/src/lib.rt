// What is proved of the entries together: what the writer writes reads back. It has no code of its own.

#![tactic(auto)]
