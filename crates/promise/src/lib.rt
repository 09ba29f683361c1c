#![tactic(auto)]

// No code: what it means that a promise leaves one answer (specs/Promise.antt), for every crate's theorems.
