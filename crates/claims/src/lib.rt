// What holds over several crates stands in specs/ and proofs/: this crate has no code of its own.
#![tactic(auto)]
