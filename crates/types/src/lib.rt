// What the layers share: vrf-net/src/types.rs, the kinds of error.rs, and the header of bunch.rs.
#![tactic(auto)]

ghost use Rattle.std.specs.Prelude.{◌≡◌, ◌<◌};
ghost use Rattle.types.specs.Types.{close_reason_maximum, reason_word, reason_of};

pub mod continuing;

// The serialized maximum of a bunch's payload count: the Rust's MAX_PACKET_SIZE_BITS.
pub const MAX_PACKET_SIZE_BITS: u32 = 16384;

// The longest payload that such a count can tell.
pub const MAX_PAYLOAD_BITS: u64 = 16383;

// The longest packet in bytes, and its bits: a log's record counts no more.
pub const MAX_PACKET_BYTES: usize = 65535;

pub const MAX_PACKET_BITS: u64 = 524280;

// The most channels that a table of the packet reader may hold.
pub const MAX_ACTIVE_CHANNELS: usize = 4096;

// The accumulator's limits at most: of its messages, and of their bits.
pub const MAX_ACTIVE_PARTIAL_BUNCHES: usize = 4096;

pub const MAX_BUFFERED_PARTIAL_BITS: u64 = 536870912;

// The serialized maximum of a close reason: the Rust's ChannelCloseReason::MAX.
pub const CHANNEL_CLOSE_REASON_MAX: u32 = 15;

#[derive(Clone, Copy, Debug, PartialEq, Eq)]
pub enum ChannelCloseReason {
    Destroyed,
    Dormancy,
}

// The Rust's names. `From` would hide that a number which is no reason's gives one all the same.
impl ChannelCloseReason {
    // The number that a reason is written as.
    #[tactic(auto, using(crate::proofs::Reasons::maximum_least))]
    pub fn to_raw(self) -> u32
        ensures { (result ≡ reason_word self) × (result < close_reason_maximum) }
    {
        match self {
            ChannelCloseReason::Destroyed => 0,
            ChannelCloseReason::Dormancy => 1,
        }
    }

    // Only raw 1 is Dormancy.
    #[tactic(auto, unfolding(crate::specs::Types::reason_of))]
    pub fn from_raw(raw: u64) -> Self
        ensures { result ≡ reason_of raw }
    {
        match raw {
            1 => ChannelCloseReason::Dormancy,
            _ => ChannelCloseReason::Destroyed,
        }
    }
}

#[derive(Clone, Copy, Debug, PartialEq, Eq)]
pub enum PartialSequenceKind {
    MissingInitial,
    OverlappingInitial,
    MismatchedContinuation,
    NonByteAlignedFragment,
}

#[derive(Clone, Copy)]
pub struct RawBunchHeader {
    pub packet_id: i32,
    pub ch_index: u32,
    pub b_open: bool,
    pub b_close: bool,
    pub b_dormant: bool,
    pub b_is_replication_paused: bool,
    pub b_reliable: bool,
    pub b_partial: bool,
    pub b_partial_initial: bool,
    pub b_partial_final: bool,
    pub b_has_package_map_exports: bool,
    pub b_has_must_be_mapped_guids: bool,
    pub ch_sequence: i32,
    pub close_reason: ChannelCloseReason,
    pub payload_bit_count: u32,
    pub payload_bit_offset: u64,
    pub has_partial_error: bool,
    pub partial_error_kind: Option<PartialSequenceKind>,
    pub is_partial_completed: bool,
    pub has_channel_limit_error: bool,
}
