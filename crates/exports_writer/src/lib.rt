// The writer's calls for C and Rust. A call writes three words: 0 and up to which bit the packet is written, or a refusal's number
// and what it returns.
#![tactic(auto)]

mod words;
pub mod writes;
