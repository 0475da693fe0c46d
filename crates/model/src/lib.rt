#![tactic(auto)]

// The definitions (specs/) and theorems (proofs/) that every other crate stands on. It has no code.
