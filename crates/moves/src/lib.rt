// Stored lines moved between the two forms of a row: only definitions, in specs/, and laws, in proofs/.

#![tactic(auto)]
