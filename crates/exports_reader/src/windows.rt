// A reader opened, where it stands, and moving it without reading.
ghost use Rattle.std.specs.Prelude.{◌≡◌};
ghost use Rattle.bitio_window.specs.Windows.{window_at, new_window, with_bit_len, bits_remaining};
ghost use Rattle.bitio_window.specs.Windows.{at_end, sub_reader, skip_bits, skip_remaining};
ghost use Rattle.exports_words.specs.Words.{words, opened_words, count_words, none, window_words};

use bitio_reader::plain;
use exports_words::words::Words;
use exports_words::{inner, words};

#[unsafe(no_mangle)]
pub extern "C" fn gritwheel_reader_new(bytes: &[u8], out: &mut Words)
    ensures { out.new ≡ opened_words (new_window bytes.now) }
{
    *out = words::of_opened(plain::new(bytes));
}

#[unsafe(no_mangle)]
pub extern "C" fn gritwheel_reader_with_bit_len(bytes: &[u8], bit_len: u64, out: &mut Words)
    ensures { out.new ≡ opened_words (with_bit_len bytes.now bit_len) }
{
    *out = words::of_opened(plain::with_bit_len(bytes, bit_len));
}

#[unsafe(no_mangle)]
pub extern "C" fn gritwheel_reader_position(
    bytes: &[u8],
    start: u64,
    position: u64,
    length: u64,
) -> u64
    ensures { result ≡ position }
{
    plain::position(bytes, words::window_at(start, position, length))
}

#[unsafe(no_mangle)]
pub extern "C" fn gritwheel_reader_len_bits(
    bytes: &[u8],
    start: u64,
    position: u64,
    length: u64,
) -> u64
    ensures { result ≡ length }
{
    plain::len_bits(bytes, words::window_at(start, position, length))
}

#[unsafe(no_mangle)]
pub extern "C" fn gritwheel_reader_bits_remaining(
    bytes: &[u8],
    start: u64,
    position: u64,
    length: u64,
    out: &mut Words,
)
    ensures { let w = window_at start position length in out.new ≡ count_words w (bits_remaining w) }
{
    let w = words::window_at(start, position, length);
    *out = words::of_count(w, plain::bits_remaining(bytes, w));
}

#[unsafe(no_mangle)]
pub extern "C" fn gritwheel_reader_at_end(
    bytes: &[u8],
    start: u64,
    position: u64,
    length: u64,
) -> bool
    ensures { result ≡ at_end (window_at start position length) }
{
    plain::at_end(bytes, words::window_at(start, position, length))
}

#[unsafe(no_mangle)]
pub extern "C" fn gritwheel_reader_sub_reader(
    bytes: &[u8],
    start: u64,
    position: u64,
    length: u64,
    count: u64,
    out: &mut Words,
)
    ensures { out.new ≡ words window_words (sub_reader count bytes.now (window_at start position length)) }
{
    *out = inner::of_call(
        start,
        position,
        length,
        |w| plain::sub_reader(bytes, w, count),
    );
}

#[unsafe(no_mangle)]
pub extern "C" fn gritwheel_reader_skip_bits(
    bytes: &[u8],
    start: u64,
    position: u64,
    length: u64,
    count: u64,
    out: &mut Words,
)
    ensures { out.new ≡ words none (skip_bits count bytes.now (window_at start position length)) }
{
    *out = inner::of_call(
        start,
        position,
        length,
        |w| plain::skip_bits(bytes, w, count),
    );
}

#[unsafe(no_mangle)]
pub extern "C" fn gritwheel_reader_skip_remaining(
    bytes: &[u8],
    start: u64,
    position: u64,
    length: u64,
    out: &mut Words,
)
    ensures { out.new ≡ words none (skip_remaining bytes.now (window_at start position length)) }
{
    *out = inner::of_call(start, position, length, |w| plain::skip_remaining(bytes, w));
}
