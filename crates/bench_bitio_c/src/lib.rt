// The loops of `bench_bitio` as bench/ finds them.
#![tactic(auto)]

ghost use Rattle.std.specs.Prelude.{◌≡◌};
ghost use Rattle.bitio_window.specs.Windows.{window_at};
ghost use Rattle.bench_bitio.specs.Sums.{bit_sum, bits_sum, packed_sum, serialized_sum, copies_made};

#[unsafe(no_mangle)]
pub extern "C" fn timing_read_bit(
    bytes: &[u8],
    start: u64,
    position: u64,
    length: u64,
    n: u64,
) -> u64
    ensures { result ≡ bit_sum n bytes.now (window_at start position length) }
{
    bench_bitio::timing_read_bit(bytes, start, position, length, n)
}

#[unsafe(no_mangle)]
pub extern "C" fn timing_read_bits(
    bytes: &[u8],
    start: u64,
    position: u64,
    length: u64,
    widths: &[u32],
) -> u64
    ensures { result ≡ bits_sum widths.now bytes.now (window_at start position length) }
{
    bench_bitio::timing_read_bits(bytes, start, position, length, widths)
}

#[unsafe(no_mangle)]
pub extern "C" fn timing_read_int_packed(
    bytes: &[u8],
    start: u64,
    position: u64,
    length: u64,
    n: u64,
) -> u64
    ensures { result ≡ packed_sum n bytes.now (window_at start position length) }
{
    bench_bitio::timing_read_int_packed(bytes, start, position, length, n)
}

#[unsafe(no_mangle)]
pub extern "C" fn timing_read_serialized_int(
    bytes: &[u8],
    start: u64,
    position: u64,
    length: u64,
    maxima: &[u32],
) -> u64
    ensures { result ≡ serialized_sum maxima.now bytes.now (window_at start position length) }
{
    bench_bitio::timing_read_serialized_int(bytes, start, position, length, maxima)
}

#[unsafe(no_mangle)]
pub extern "C" fn timing_copy(
    bytes: &[u8],
    start: u64,
    position: u64,
    length: u64,
    counts: &[u64],
    target: &mut [u8],
) -> u64
    ensures { record { number = result; target = target.new }
        ≡ copies_made counts.now target.old bytes.now (window_at start position length) }
{
    bench_bitio::timing_copy(bytes, start, position, length, counts, target)
}
