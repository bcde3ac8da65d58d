// What moving stored lines between the two forms of a row keeps: only theorems, in specs/ and proofs/.

#![tactic(auto)]
