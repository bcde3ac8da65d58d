// A sorted index beside the unit table: only theorems, in specs/ and proofs/.

#![tactic(auto)]
