// The accumulator's answers as words, for C and Rust (specs/).
#![tactic(auto)]

pub mod fragments;
pub mod taken;
