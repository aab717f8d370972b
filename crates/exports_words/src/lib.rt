// The bit reader's and the walks' answers as words, for C and Rust: seven of every call (specs/Words.antt), eight of a walk
// (specs/Walks.antt).
#![tactic(auto)]

pub mod inner;
pub mod values;
pub mod words;
