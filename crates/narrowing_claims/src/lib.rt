// The claims of L13 as theorems: this crate has no code. See specs/, Composition.antt and Kept.antt first.
#![tactic(auto)]
