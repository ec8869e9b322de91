// Bounds over rows as definitions (specs/), and why pivoting by least index ends and is right (proofs/); the crate has no code.
#![tactic(auto)]
