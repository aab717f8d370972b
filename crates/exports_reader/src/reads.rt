// Reads through a reader. Each writes the seven words of its answer. C finds each by its name, and gives a
// window as three numbers.
ghost use Rattle.std.specs.Prelude.{◌≡◌};
ghost use Rattle.bitio_window.specs.Reads.{read_bit, read_bits, read_i32, read_f32, read_f64};
ghost use Rattle.bitio_window.specs.Numbers.{read_packed, read_serialized};
ghost use Rattle.bitio_window.specs.Windows.{window_at};
ghost use Rattle.exports_words.specs.Words.{words, one, flag_word, signed_word, pattern, float};

use bitio_reader::plain;
use exports_words::words::Words;
use exports_words::{inner, words};

#[unsafe(no_mangle)]
pub extern "C" fn gritwheel_reader_read_bit(
    bytes: &[u8],
    start: u64,
    position: u64,
    length: u64,
    out: &mut Words,
)
    ensures { out.new ≡ words flag_word (read_bit bytes.now (window_at start position length)) }
{
    *out = inner::of_call(start, position, length, |w| plain::read_bit(bytes, w));
}

#[unsafe(no_mangle)]
pub extern "C" fn gritwheel_reader_read_bits(
    bytes: &[u8],
    start: u64,
    position: u64,
    length: u64,
    count: u32,
    out: &mut Words,
)
    ensures { out.new ≡ words one (read_bits count bytes.now (window_at start position length)) }
{
    *out = inner::of_call(
        start,
        position,
        length,
        |w| plain::read_bits(bytes, w, count),
    );
}

#[unsafe(no_mangle)]
pub extern "C" fn gritwheel_reader_read_u8(
    bytes: &[u8],
    start: u64,
    position: u64,
    length: u64,
    out: &mut Words,
)
    ensures { out.new ≡ words one (read_bits 8 bytes.now (window_at start position length)) }
{
    *out = inner::of_call(start, position, length, |w| plain::read_u8(bytes, w));
}

#[unsafe(no_mangle)]
pub extern "C" fn gritwheel_reader_read_u16(
    bytes: &[u8],
    start: u64,
    position: u64,
    length: u64,
    out: &mut Words,
)
    ensures { out.new ≡ words one (read_bits 16 bytes.now (window_at start position length)) }
{
    *out = inner::of_call(start, position, length, |w| plain::read_u16(bytes, w));
}

#[unsafe(no_mangle)]
pub extern "C" fn gritwheel_reader_read_u32(
    bytes: &[u8],
    start: u64,
    position: u64,
    length: u64,
    out: &mut Words,
)
    ensures { out.new ≡ words one (read_bits 32 bytes.now (window_at start position length)) }
{
    *out = inner::of_call(start, position, length, |w| plain::read_u32(bytes, w));
}

#[unsafe(no_mangle)]
pub extern "C" fn gritwheel_reader_read_i32(
    bytes: &[u8],
    start: u64,
    position: u64,
    length: u64,
    out: &mut Words,
)
    ensures { out.new ≡ words signed_word (read_i32 bytes.now (window_at start position length)) }
{
    *out = inner::of_call(start, position, length, |w| plain::read_i32(bytes, w));
}

#[unsafe(no_mangle)]
pub extern "C" fn gritwheel_reader_read_u64(
    bytes: &[u8],
    start: u64,
    position: u64,
    length: u64,
    out: &mut Words,
)
    ensures { out.new ≡ words one (read_bits 64 bytes.now (window_at start position length)) }
{
    *out = inner::of_call(start, position, length, |w| plain::read_u64(bytes, w));
}

#[tactic(auto, using(exports_words::proofs::Floats::float_words, exports_words::proofs::Floats::float_stored))]
#[unsafe(no_mangle)]
pub extern "C" fn gritwheel_reader_read_f32(
    bytes: &[u8],
    start: u64,
    position: u64,
    length: u64,
    value: &mut f32,
    out: &mut Words,
)
    ensures { let read = read_f32 bytes.now (window_at start position length) in
        (out.new ≡ words pattern read) × (value.new ≡ float value.old read) }
{
    let mut w = words::window_at(start, position, length);
    let single = plain::read_f32(bytes, &mut w);
    *out = words::of_read(single, w);
    words::store_number(single, value);
}

#[tactic(auto, using(exports_words::proofs::Floats::float_words, exports_words::proofs::Floats::float_stored))]
#[unsafe(no_mangle)]
pub extern "C" fn gritwheel_reader_read_f64(
    bytes: &[u8],
    start: u64,
    position: u64,
    length: u64,
    value: &mut f64,
    out: &mut Words,
)
    ensures { let read = read_f64 bytes.now (window_at start position length) in
        (out.new ≡ words pattern read) × (value.new ≡ float value.old read) }
{
    let mut w = words::window_at(start, position, length);
    let double = plain::read_f64(bytes, &mut w);
    *out = words::of_read(double, w);
    words::store_number(double, value);
}

#[unsafe(no_mangle)]
pub extern "C" fn gritwheel_reader_read_int_packed(
    bytes: &[u8],
    start: u64,
    position: u64,
    length: u64,
    out: &mut Words,
)
    ensures { out.new ≡ words one (read_packed bytes.now (window_at start position length)) }
{
    *out = inner::of_call(
        start,
        position,
        length,
        |w| plain::read_int_packed(bytes, w),
    );
}

#[unsafe(no_mangle)]
pub extern "C" fn gritwheel_reader_read_serialized_int(
    bytes: &[u8],
    start: u64,
    position: u64,
    length: u64,
    max: u32,
    out: &mut Words,
)
    ensures { out.new ≡ words one (read_serialized max bytes.now (window_at start position length)) }
{
    *out = inner::of_call(
        start,
        position,
        length,
        |w| plain::read_serialized_int(bytes, w, max),
    );
}
