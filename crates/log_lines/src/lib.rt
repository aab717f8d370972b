// The lines of the listing, as bytes in a lent slice.
#![tactic(auto)]

pub mod inner;

// What a bunch's line shows of its header, by the header's names.
#[derive(Clone, Copy)]
pub struct BunchLine {
    pub packet_id: i32,
    pub ch_index: u32,
    pub ch_sequence: i32,
    pub b_reliable: bool,
    pub b_partial: bool,
    pub b_partial_initial: bool,
    pub b_partial_final: bool,
    pub payload_bit_count: u32,
    pub payload_bit_offset: u64,
    pub is_partial_completed: bool,
    pub has_partial_error: bool,
    pub has_channel_limit_error: bool,
}

// What a packet's line shows.
#[derive(Clone, Copy)]
pub struct PacketLine {
    pub packet_id: i32,
    pub bunches: u64,
    pub is_malformed: bool,
    pub partial_errors: u64,
    pub channel_limits: u64,
}
