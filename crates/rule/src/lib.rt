#![tactic(auto)]

// There is no code here: the crate is its definitions (specs/) and their laws (proofs/).
