// Calls from C one after another: definitions in specs/, theorems in proofs/.
#![tactic(auto)]
