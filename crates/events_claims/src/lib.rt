// The claims of L6 as theorems: this crate has no code. See specs/, Round.antt and Answers.antt first.
#![tactic(auto)]
