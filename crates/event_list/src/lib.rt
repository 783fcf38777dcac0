// Plans as events in time order, and back: the definitions and laws are in specs/ and proofs/.
#![tactic(auto)]
