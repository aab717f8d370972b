// Many reads in one call, for bench/ to time: through `bitio`'s public calls. A loop for each call and none over a closure: what is timed
// is the call as a program writes it.
#![tactic(auto)]

ghost use Rattle.std.specs.Prelude.{◌≡◌};
ghost use Rattle.bitio_window.specs.Windows.{window_at};
ghost use Rattle.bench_bitio.specs.Sums.{bit_sum, bits_sum, packed_sum, serialized_sum, copies_made};

use bitio::{copies, reads};
use bitio_window::{PacketBit, Window, WindowBit};

pub fn timing_read_bit(bytes: &[u8], start: u64, position: u64, length: u64, n: u64) -> u64
    ensures { result ≡ bit_sum n bytes.now (window_at start position length) }
{
    let mut w = Window {
        start: PacketBit(start),
        position: WindowBit(position),
        length,
    };
    let mut sum: u64 = 0;
    for _k in 0..n {
        match reads::read_bit(bytes, &mut w) {
            Ok(v) => {
                sum = sum.wrapping_add(v.into());
            }
            Err(_) => {
                return sum;
            }
        }
    }
    sum
}

pub fn timing_read_bits(bytes: &[u8], start: u64, position: u64, length: u64, widths: &[u32]) -> u64
    ensures { result ≡ bits_sum widths.now bytes.now (window_at start position length) }
{
    let mut w = Window {
        start: PacketBit(start),
        position: WindowBit(position),
        length,
    };
    let mut sum: u64 = 0;
    for width in widths {
        match reads::read_bits(bytes, &mut w, *width) {
            Ok(v) => {
                sum = sum.wrapping_add(v);
            }
            Err(_) => {
                return sum;
            }
        }
    }
    sum
}

pub fn timing_read_int_packed(bytes: &[u8], start: u64, position: u64, length: u64, n: u64) -> u64
    ensures { result ≡ packed_sum n bytes.now (window_at start position length) }
{
    let mut w = Window {
        start: PacketBit(start),
        position: WindowBit(position),
        length,
    };
    let mut sum: u64 = 0;
    for _k in 0..n {
        match reads::read_int_packed(bytes, &mut w) {
            Ok(v) => {
                sum = sum.wrapping_add(v.into());
            }
            Err(_) => {
                return sum;
            }
        }
    }
    sum
}

pub fn timing_read_serialized_int(
    bytes: &[u8],
    start: u64,
    position: u64,
    length: u64,
    maxima: &[u32],
) -> u64
    ensures { result ≡ serialized_sum maxima.now bytes.now (window_at start position length) }
{
    let mut w = Window {
        start: PacketBit(start),
        position: WindowBit(position),
        length,
    };
    let mut sum: u64 = 0;
    for max in maxima {
        match reads::read_serialized_int(bytes, &mut w, *max) {
            Ok(v) => {
                sum = sum.wrapping_add(v.into());
            }
            Err(_) => {
                return sum;
            }
        }
    }
    sum
}

pub fn timing_copy(
    bytes: &[u8],
    start: u64,
    position: u64,
    length: u64,
    counts: &[u64],
    target: &mut [u8],
) -> u64
    ensures { record { number = result; target = target.new }
        ≡ copies_made counts.now target.old bytes.now (window_at start position length) }
{
    let mut w = Window {
        start: PacketBit(start),
        position: WindowBit(position),
        length,
    };
    let mut made: u64 = 0;
    for count in counts {
        match copies::copy_bits_to(bytes, &mut w, target, *count) {
            Ok(()) => {
                made += 1;
            }
            Err(_) => {
                return made;
            }
        }
    }
    made
}
