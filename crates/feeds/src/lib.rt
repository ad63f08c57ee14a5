// Regional IP feeds: theorems about regenerating, in proofs/.
#![tactic(auto)]
