// The rational numbers as definitions (specs/) and laws (proofs/); the crate has no code.
#![tactic(auto)]
