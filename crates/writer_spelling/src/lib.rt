// The bits of a bunch header as words by value: what the writer puts into a packet.
#![tactic(auto)]

pub mod inner;
