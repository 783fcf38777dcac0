// No code: what the answers of `earliest` mean, as theorems in proofs/.
#![tactic(auto)]
