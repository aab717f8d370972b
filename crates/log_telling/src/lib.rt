// One packet's part of the listing, into a buffer in which any packet finds room.
#![tactic(auto)]

pub mod inner;
