#![tactic(auto)]

// No code: the demands, as theorems over what the contracts of the public functions say (proofs/).
