// The round trips: theorems about the definitions of `frame`, in proofs/.
#![tactic(auto)]
