// The claims of L10 as theorems: this crate has no code. See specs/, Removed.antt first.
#![tactic(auto)]
