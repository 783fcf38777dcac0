// The claims of L5 and L14 as theorems: this crate has no code. See specs/, Accepted.antt, Undisturbed.antt and Easing.antt first.
#![tactic(auto)]
