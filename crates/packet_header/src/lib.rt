// The bits of a bunch header: what `parse_bunch_header` of vrf-net/src/packet.rs reads.
#![tactic(auto)]

pub mod inner;

// What the bits of a header say, wherever it stands; the close reason as its number.
#[derive(Clone, Copy, Debug, PartialEq, Eq)]
pub struct BunchFields {
    pub b_open: bool,
    pub b_close: bool,
    pub close_reason: u32,
    pub b_is_replication_paused: bool,
    pub b_reliable: bool,
    pub ch_index: u32,
    pub b_has_package_map_exports: bool,
    pub b_has_must_be_mapped_guids: bool,
    pub b_partial: bool,
    pub b_partial_initial: bool,
    pub b_partial_final: bool,
    pub payload_bit_count: u32,
}
