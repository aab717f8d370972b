// The bit reader's public calls, which refuse bad input themselves: windows, reads, copies. Follows vrf-bitio/src/lib.rs.
#![tactic(auto)]

pub mod copies;
pub mod reads;
pub mod windows;
