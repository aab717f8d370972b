// The header as two words by value: up to its channel, and after it.
ghost use Rattle.std.specs.Prelude.{◌≡◌, ◌+◌, ◌^◌, ◌≤◌, ◌<◌};
ghost use Rattle.bitio_window.specs.Widths.{serialized_width};
ghost use Rattle.types.specs.Types.{close_reason_maximum, payload_maximum};
ghost use Rattle.writer_spelling.specs.Bits.{number_bits, only_if, packed_bits, serialized_bits};
ghost use Rattle.writer_spelling.specs.Header.{flag_bit, front_bits, back_bits};
ghost use Rattle.writer_spelling.specs.Words.{Whole, Adds, nothing};

use crate::inner::Bits;
use bitio_bits::inner::arithmetic::only_if;
use bitio_window::inner::numbers::serialized_width;
use packet_header::BunchFields;
use types::{CHANNEL_CLOSE_REASON_MAX, MAX_PACKET_SIZE_BITS};

impl Bits {
    // The number `width` bits wide, above the bits that are there.
    pub fn add(self, value: u64, width: u64) -> Self
        requires { Whole self × (value < 2 ^ width) × (self.count + width ≤ 56) }
        ensures { Adds width self (number_bits width value) result }
    {
        Bits {
            word: self.word + (value << self.count),
            count: self.count + width,
        }
    }

    // What is not wanted is a 0 of no bits.
    fn add_if(self, wanted: bool, value: u64, width: u64) -> Self
        requires { Whole self × (value < 2 ^ width) × (self.count + width ≤ 56) }
        ensures { Adds width self (only_if wanted (number_bits width value)) result }
    {
        self.add(only_if(wanted, value), only_if(wanted, width))
    }

    fn flag_if(self, wanted: bool, value: bool) -> Self
        requires { Whole self × (self.count ≤ 55) }
        ensures { Adds 1 self (only_if wanted (flag_bit value)) result }
    {
        self.add_if(wanted, only_if(value, 1), 1)
    }

    fn flag(self, value: bool) -> Self
        requires { Whole self × (self.count ≤ 55) }
        ensures { Adds 1 self (flag_bit value) result }
    {
        self.add(only_if(value, 1), 1)
    }

    // Seven bits a byte, from the lowest, as long as more follow: a `while`, since how many do is found on the way.
    fn packed(self, number: u32) -> Self
        requires { Whole self × (self.count ≤ 16) }
        ensures { Adds 40 self (packed_bits number) result }
    {
        let mut to = self;
        let mut rest = number as u64;
        while rest >= 128 {
            to = to.add(1 + 2 * (rest % 128), 8);
            rest /= 128;
        }
        to.add(2 * rest, 8)
    }

    // As many bits as a read of it takes.
    fn serialized_if(self, wanted: bool, value: u32, max: u32) -> Self
        requires { Whole self × (value < max) × (self.count + serialized_width max value ≤ 56) }
        ensures { Adds (serialized_width max value) self (only_if wanted (serialized_bits max value)) result }
    {
        let number = value as u64;
        self.add_if(wanted, number, serialized_width(number, max))
    }

    fn nothing() -> Self
        ensures { (result ≡ nothing) × Whole result × (result.count ≤ 0) }
    {
        Bits { word: 0, count: 0 }
    }
}

pub fn front(f: BunchFields) -> Bits
    requires { f.close_reason < close_reason_maximum }
    ensures { Adds 56 nothing (front_bits f) result }
{
    let control = f.b_open | f.b_close;
    Bits::nothing()
        .flag(control)
        .flag_if(control, f.b_open)
        .flag_if(control, f.b_close)
        .serialized_if(f.b_close, f.close_reason, CHANNEL_CLOSE_REASON_MAX)
        .flag(f.b_is_replication_paused)
        .flag(f.b_reliable)
        .packed(f.ch_index)
}

pub fn back(f: BunchFields) -> Bits
    requires { f.payload_bit_count < payload_maximum }
    ensures { Adds 47 nothing (back_bits f) result }
{
    let named = f.b_reliable | f.b_open;
    Bits::nothing()
        .flag(f.b_has_package_map_exports)
        .flag(f.b_has_must_be_mapped_guids)
        .flag(f.b_partial)
        .flag(false)
        .flag_if(f.b_partial, f.b_partial_initial)
        .flag_if(f.b_partial, f.b_partial_final)
        .flag_if(named, false)
        .add_if(named, 0, 8)
        .serialized_if(true, f.payload_bit_count, MAX_PACKET_SIZE_BITS)
}
