// Bits of a byte slice, and of words: what vrf-bitio/src/lib.rs does below its reader.
#![tactic(auto)]

pub mod inner;
