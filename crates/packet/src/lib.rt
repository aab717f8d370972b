// The packet reader, one bunch a call: vrf-net/src/packet.rs over lent tables.
#![tactic(auto)]

pub mod packets;
