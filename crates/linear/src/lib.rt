// Functions that keep exclusive or: laws about numbers alone, in proofs/.
#![tactic(auto)]
