// Many reads in one call, for bench/ to time: through the reader that keeps its slice. In a library of its own: beside it the loops of
// bench_bitio are compiled otherwise.
#![tactic(auto)]

ghost use Rattle.std.specs.Prelude.{◌≡◌};
ghost use Rattle.bitio_window.specs.Windows.{window_at};
ghost use Rattle.bench_bitio.specs.Sums.{bits_sum, packed_sum};

use bitio_reader::plain;
use bitio_window::{PacketBit, Window, WindowBit};

#[unsafe(no_mangle)]
pub extern "C" fn timing_reader_read_bits(
    bytes: &[u8],
    start: u64,
    position: u64,
    length: u64,
    widths: &[u32],
) -> u64
    ensures { result ≡ bits_sum widths.now bytes.now (window_at start position length) }
{
    let mut w = Window {
        start: PacketBit(start),
        position: WindowBit(position),
        length,
    };
    let mut sum: u64 = 0;
    for width in widths {
        match plain::read_bits(bytes, &mut w, *width) {
            Ok(v) => {
                sum = sum.wrapping_add(v);
            }
            Err(_) => {
                return sum;
            }
        }
    }
    sum
}

#[unsafe(no_mangle)]
pub extern "C" fn timing_reader_read_int_packed(
    bytes: &[u8],
    start: u64,
    position: u64,
    length: u64,
    n: u64,
) -> u64
    ensures { result ≡ packed_sum n bytes.now (window_at start position length) }
{
    let mut w = Window {
        start: PacketBit(start),
        position: WindowBit(position),
        length,
    };
    let mut sum: u64 = 0;
    for _k in 0..n {
        match plain::read_int_packed(bytes, &mut w) {
            Ok(v) => {
                sum = sum.wrapping_add(v.into());
            }
            Err(_) => {
                return sum;
            }
        }
    }
    sum
}
