// No code: what books that speak only of order promise, as theorems in proofs/.
#![tactic(auto)]
