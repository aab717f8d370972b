// A bunch writer over a lent packet: what it writes, the packet reader reads back.
#![tactic(auto)]

pub mod inner;
pub mod writing;

// Why a call refused, each case with document 01's number.
#[derive(Clone, Copy, Debug, PartialEq, Eq)]
pub enum WriteError {
    // 5
    CursorPastRoom { position: u64, available: u64 },
    // 11
    PayloadTooLong { count: u64 },
    // 12
    PayloadShort { count: u64 },
    // 16
    Unwritable,
    // 17
    NoRoom { bits: u64 },
}
