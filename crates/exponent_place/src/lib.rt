// What is proved of the place that is handed back with an exponent out of range. It has no code of its own.

#![tactic(auto)]
