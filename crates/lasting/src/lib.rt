// Runs over a live line: definitions in specs/, theorems in proofs/.
#![tactic(auto)]
