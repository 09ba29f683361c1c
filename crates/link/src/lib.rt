#![tactic(auto)]

// There is no code here: the crate is what holds of the host and the board on one line (proofs/), in the words of specs/.
