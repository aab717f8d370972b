// Chains of fragments in a row, for bench/ to time.
#![tactic(auto)]

pub mod inner;
