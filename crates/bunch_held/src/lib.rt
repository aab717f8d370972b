// The accumulator's state in lent memory, and the test of it: vrf-net/src/bunch.rs's `PartialBunchAccumulator` without its calls.
#![tactic(auto)]

use bunch_places::Place;

pub mod inner;

// The limits, and what is held now: the Rust's fields without its map, which is lent.
#[derive(Clone, Copy)]
pub struct Accumulator {
    pub max_active: usize,
    pub max_buffered_bits: u64,
    pub active: usize,
    pub total_buffered_bits: u64,
}

// The lent memory: what stands for the Rust's map. What only looks at it takes the slices apart, since C lends them to be read.
#[derive(Drop)]
pub struct LentMemory<'a> {
    pub channels: &'a mut [u32],
    pub places: &'a mut [Place],
    pub arena: &'a mut [u8],
}

// Why a call refused, each case with document 01's number.
#[derive(Clone, Copy, Debug, PartialEq, Eq)]
pub enum BunchError {
    // 10
    Unsound,
    // 11
    PayloadTooLong { count: u64 },
    // 12
    PayloadShort { count: u64 },
    // 13
    OutputShort { bytes: u64 },
    // 14
    ListFull { places: u64 },
}
