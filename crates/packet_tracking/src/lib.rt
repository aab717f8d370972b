// What the packet reader keeps of its channels, in lent columns: reliable sequences, and messages in flight. Follows
// vrf-net/src/packet.rs.
#![tactic(auto)]

pub mod inner;
