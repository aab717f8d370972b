// A bunch read over tables that have been tested: one turn of vrf-net/src/packet.rs.
#![tactic(auto)]

use bitio_window::Window;
use types::RawBunchHeader;

pub mod inner;

// The Rust's `RawPacketReader` without its maps: its limit, and how many places of each table count. A read moves the counts.
#[derive(Clone, Copy, Debug, PartialEq, Eq)]
pub struct RawPacketReader {
    pub max_channels: usize,
    pub live_sequences: usize,
    pub live_partials: usize,
}

// The reader's maps, in five lent columns. They stand apart from the reader: the C interface opens one over columns that it lends to be
// read (`gritwheel_with_max_channels`).
#[derive(Drop)]
pub struct ReaderColumns<'a> {
    pub sequence_channels: &'a mut [u32],
    pub sequence_numbers: &'a mut [u32],
    pub partial_channels: &'a mut [u32],
    pub partial_sequences: &'a mut [u32],
    pub partial_reliables: &'a mut [u32],
}

// Why a call refused, each case with document 01's number.
#[derive(Clone, Copy, Debug, PartialEq, Eq)]
pub enum PacketError {
    // 5
    CursorPastEnd { position: u64, available: u64 },
    // 8
    PacketTooLong { length: u64 },
    // 9
    Unfit,
    // 10
    Unsound,
}

// What stands at the cursor.
#[derive(Clone, Copy)]
pub enum Bunch {
    Read {
        header: RawBunchHeader,
        payload: Window,
    },
    End,
    Malformed,
}

// The same, and by how much the Rust's counts rise.
#[derive(Clone, Copy)]
pub struct BunchRead {
    pub answer: Bunch,
    pub bunches: u32,
    pub malformed_packets: u32,
    pub partial_errors: u32,
    pub channel_limits: u32,
}
