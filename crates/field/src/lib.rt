// The two record walks, on lists of numbers: vrf-net/src/field.rs without its sink.
#![tactic(auto)]

pub mod walks;
