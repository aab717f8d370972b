// The calls of the reader that keeps its packet's slice, each method by one: what `exports_bitio` has of windows, through a reader. They
// stand in no header; they are there to be compared with the Rust and replayed.
#![tactic(auto)]

pub mod copies;
pub mod reads;
pub mod windows;
