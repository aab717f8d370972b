// The accumulator's calls for C and Rust: they write their answers as words.
#![tactic(auto)]

pub mod adding;
pub mod drains;
pub mod handing;
pub mod opening;
