// The record walks for C and Rust: into a list of numbers, and into a list of field records beside it.
#![tactic(auto)]

pub mod records;
pub mod walks;
