// Edits of lent memory by index: places of words, and bytes.
#![tactic(auto)]

pub mod inner;

// Four words and a header's twenty.
pub type Place = [u64; 24];
