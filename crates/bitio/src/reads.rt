// Reads, in the order of vrf-bitio/src/lib.rs. Each tests its data and its window, and then reads as `inner` does.
ghost use Rattle.std.specs.Prelude.{◌≡◌};
ghost use Rattle.std.specs.Float.{binary32, binary64};
ghost use Rattle.bitio_window.specs.Reads.{read_bit, read_bits, read_i32, read_f32, read_f64};
ghost use Rattle.bitio_window.specs.Numbers.{read_packed, read_serialized};
ghost use Rattle.bitio_bits.specs.Floats.{decoded};
ghost use Rattle.bitio_window.specs.Answers.{answer, answer_of, decoded_of};

use crate::windows;
use bitio_bits::inner::signed;
use bitio_window::inner::numbers;
use bitio_window::{BitError, Decoded, F32, F64, Window, inner};

pub fn read_bit(bytes: &[u8], w: &mut Window) -> Result<bool, BitError>
    ensures { answer result w.new ≡ read_bit bytes.now w.old }
{
    windows::test(bytes, *w)?;
    inner::bit(bytes, w)
}

pub fn read_bits(bytes: &[u8], w: &mut Window, count: u32) -> Result<u64, BitError>
    ensures { answer result w.new ≡ read_bits count bytes.now w.old }
{
    windows::test(bytes, *w)?;
    if count > 64 {
        return Err(BitError::InvalidWidth { width: count });
    }
    inner::bits(bytes, w, count)
}

// A line for each width: a trait with the width and the cut would be longer than the lines that it spares.
pub fn read_u8(bytes: &[u8], w: &mut Window) -> Result<u8, BitError>
    ensures { answer result w.new ≡ read_bits 8 bytes.now w.old }
{
    Ok((read_bits(bytes, w, 8)? % 256) as u8)
}

pub fn read_u16(bytes: &[u8], w: &mut Window) -> Result<u16, BitError>
    ensures { answer result w.new ≡ read_bits 16 bytes.now w.old }
{
    Ok((read_bits(bytes, w, 16)? % 65536) as u16)
}

pub fn read_u32(bytes: &[u8], w: &mut Window) -> Result<u32, BitError>
    ensures { answer result w.new ≡ read_bits 32 bytes.now w.old }
{
    Ok((read_bits(bytes, w, 32)? % 4294967296) as u32)
}

pub fn read_i32(bytes: &[u8], w: &mut Window) -> Result<i32, BitError>
    ensures { answer result w.new ≡ read_i32 bytes.now w.old }
{
    Ok(signed::of_word(read_u32(bytes, w)?))
}

pub fn read_u64(bytes: &[u8], w: &mut Window) -> Result<u64, BitError>
    ensures { answer result w.new ≡ read_bits 64 bytes.now w.old }
{
    read_bits(bytes, w, 64)
}

// IEEE 754: a sign bit, and below it what stands for infinity; what is above that stands for no number.
const F32_SIGN: u32 = 0x8000_0000;

const F32_INFINITY: u32 = 0x7f80_0000;

const F64_SIGN: u64 = 0x8000_0000_0000_0000;

const F64_INFINITY: u64 = 0x7ff0_0000_0000_0000;

// A float of a pattern, or the pattern where it stands for no number. The two stay apart: `from_bits` is of no trait.
fn as_single(v: u32) -> F32
    ensures { decoded_of result ≡ decoded binary32 v }
{
    if v % F32_SIGN > F32_INFINITY {
        return Decoded::NoNumber(v);
    }
    Decoded::Number(f32::from_bits(v))
}

fn as_double(v: u64) -> F64
    ensures { decoded_of result ≡ decoded binary64 v }
{
    if v % F64_SIGN > F64_INFINITY {
        return Decoded::NoNumber(v);
    }
    Decoded::Number(f64::from_bits(v))
}

pub fn read_f32(bytes: &[u8], w: &mut Window) -> Result<F32, BitError>
    ensures { answer_of decoded_of result w.new ≡ read_f32 bytes.now w.old }
{
    let pattern = read_u32(bytes, w)?;
    Ok(as_single(pattern))
}

pub fn read_f64(bytes: &[u8], w: &mut Window) -> Result<F64, BitError>
    ensures { answer_of decoded_of result w.new ≡ read_f64 bytes.now w.old }
{
    let pattern = read_u64(bytes, w)?;
    Ok(as_double(pattern))
}

pub fn read_int_packed(bytes: &[u8], w: &mut Window) -> Result<u32, BitError>
    ensures { answer result w.new ≡ read_packed bytes.now w.old }
{
    windows::test(bytes, *w)?;
    numbers::packed(bytes, w)
}

pub fn read_serialized_int(bytes: &[u8], w: &mut Window, max: u32) -> Result<u32, BitError>
    ensures { answer result w.new ≡ read_serialized max bytes.now w.old }
{
    windows::test(bytes, *w)?;
    if max == 0 {
        return Err(BitError::InvalidSerializedIntMax { max });
    }
    numbers::serialized(bytes, w, max)
}
