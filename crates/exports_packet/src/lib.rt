// The packet reader's calls for C and Rust: an opening's answer as four words, a reading's as 34 (specs/Packets.antt).
#![tactic(auto)]

pub mod bunches;
pub mod packets;
