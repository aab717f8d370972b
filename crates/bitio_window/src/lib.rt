// A window over a byte slice, and the words that reads answer in. Follows vrf-bitio/src/lib.rs.
#![tactic(auto)]

ghost use Rattle.std.specs.Prelude.{◌≡◌};
ghost use Rattle.bitio_window.specs.Refusals.{place_of};

pub mod inner;

// The longest data in bytes: 7 refuses longer ones.
pub const MAX_DATA_BYTES: usize = 67108864;

// A bit's place counted from the window's first bit: the Rust's `pos`.
#[repr(C)]
#[derive(Clone, Copy, Debug, PartialEq, Eq, PartialOrd, Ord)]
pub struct WindowBit(pub u64);

// A bit's place counted from the packet's first bit: the Rust's `start_bit + pos`.
#[repr(C)]
#[derive(Clone, Copy, Debug, PartialEq, Eq, PartialOrd, Ord)]
pub struct PacketBit(pub u64);

// The Rust's `BitReader` without its slice. A read moves it, also where it refuses. The slice stands beside it in every call, since
// document 01 has a plain cursor, and above it a thin reader that keeps both (`bitio_reader`).
#[derive(Clone, Copy, Debug, PartialEq, Eq)]
pub struct Window {
    pub start: PacketBit,
    pub position: WindowBit,
    pub length: u64,
}

// The position that a refusal carries. It is made by `place_of` alone.
#[derive(Clone, Copy, Debug, PartialEq, Eq)]
pub struct Place {
    pub at: WindowBit,
}

pub fn place_of(w: Window) -> Place
    ensures { result ≡ place_of w }
{
    Place { at: w.position }
}

// Why a call refused, each case with document 01's number.
#[derive(Clone, Copy, Debug, PartialEq, Eq)]
pub enum BitError {
    // 1
    Eof {
        position: Place,
        length: u64,
        requested: u64,
    },
    // 2
    MalformedIntPacked {
        position: Place,
    },
    // 3
    IntPackedOverflow {
        position: Place,
    },
    // 4
    InvalidSerializedIntMax {
        max: u32,
    },
    // 5
    InvalidBitLength {
        requested: u64,
        available: u64,
    },
    // 6
    InvalidWidth {
        width: u32,
    },
    // 7
    DataTooLong {
        length: u64,
    },
}

// A float, or the bits of a pattern that stands for no number: a float can't carry them.
#[derive(Clone, Copy)]
pub enum Decoded<N, B> {
    Number(N),
    NoNumber(B),
}

pub type F32 = Decoded<f32, u32>;

pub type F64 = Decoded<f64, u64>;
