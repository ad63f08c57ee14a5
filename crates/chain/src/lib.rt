// Chains of relays: definitions in specs/, laws in proofs/.
#![tactic(auto)]
