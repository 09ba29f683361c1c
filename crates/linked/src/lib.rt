#![tactic(auto)]

// There is no code here: what holds of the functions that C and Rust link (specs/, proofs/).
