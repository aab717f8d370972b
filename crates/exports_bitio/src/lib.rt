// The bit reader's calls for C and Rust: numbers and slices in, each answer as words (crates/exports_words).
#![tactic(auto)]

pub mod copies;
pub mod reads;
pub mod windows;
