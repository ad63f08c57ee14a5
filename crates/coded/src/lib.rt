// The coding array with the check bytes of its rows: definitions in specs/, laws in proofs/.
#![tactic(auto)]
