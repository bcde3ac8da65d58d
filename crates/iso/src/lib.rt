// ISO timings: only definitions, in specs/, and laws, in proofs/.

#![tactic(auto)]
