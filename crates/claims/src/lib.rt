// The demands as theorems: this crate has no code. See specs/, Papers.antt first.
#![tactic(auto)]
