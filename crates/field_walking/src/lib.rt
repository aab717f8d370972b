// A record walk on a list of numbers: its answers, and the walk in a window that has been tested.
#![tactic(auto)]

ghost use Rattle.std.specs.Prelude.{◌≡◌};

use bitio_window::{BitError, PacketBit, Place, WindowBit};

pub mod inner;

// What the Rust's `on_field` and `on_rpc` are given; the payload's start stands for their reader.
#[repr(C)]
#[derive(Clone, Copy, Debug, PartialEq, Eq)]
pub struct FieldRecord {
    pub handle: u32,
    pub bit_count: u32,
    pub in_window: WindowBit,
    pub in_packet: PacketBit,
}

// The same as a place in a lent list of numbers: the four fields, in their order.
pub type Record = [u64; 4];

impl From<FieldRecord> for Record {
    ghost use Rattle.field_walking.specs.Walks.{record_numbers};

    ghost from_gives = { λ r numbers. numbers ≡ record_numbers r };

    fn from(found: FieldRecord) -> Record {
        let FieldRecord {
            handle,
            bit_count,
            in_window,
            in_packet,
        } = found;
        [handle.into(), bit_count.into(), in_window.0, in_packet.0]
    }
}

// Why a walk refused.
#[derive(Clone, Copy, Debug, PartialEq, Eq)]
pub enum FieldError {
    Bits(BitError),
    // 14
    RecordListFull { position: Place },
    // 15
    UnresolvedFunctionCount,
}

impl From<BitError> for FieldError {
    ghost use Rattle.field_walking.specs.declared.FieldError.{FieldError};

    ghost from_gives = { λ a b. b ≡ FieldError.Bits a };

    fn from(e: BitError) -> FieldError {
        FieldError::Bits(e)
    }
}

#[derive(Clone, Copy, Debug, PartialEq, Eq)]
pub enum Stop {
    Ended,
    // bits after the end, for the class net cache
    ClassNetCacheTail(u64),
    Abandoned(u64),
}

// Where a walk stopped or why it refused, and how many records it wrote: also where it refuses.
#[derive(Clone, Copy, Debug, PartialEq, Eq)]
pub struct Walk {
    pub stop: Result<Stop, FieldError>,
    pub count: u64,
}
