// Packed and serialized numbers for the project's own crates: what the tests before a read show is required.
ghost use Rattle.std.specs.Prelude.{◌≡◌, ◌+◌, ◌-◌, ◌≤◌, ◌<◌, ◌^◌, leb};
ghost use Rattle.bitio_window.specs.Numbers.{packed, log2, serialized};
ghost use Rattle.bitio_window.specs.Widths.{serialized_width};
ghost use Rattle.bitio_window.specs.Answers.{answer};
ghost use Rattle.bitio_window.specs.Sound.{Sound};

use crate::inner::words;
use crate::{BitError, Window, place_of};
use bitio_bits::inner::arithmetic::only_if;
use bitio_bits::inner::masks;

// Each byte is a field of one peeked word: five of them are 40 bits.
pub fn packed(bytes: &[u8], w: &mut Window) -> Result<u32, BitError>
    requires { Sound bytes.now w.old }
    ensures { (answer result w.new ≡ packed bytes.now w.old) × Sound bytes.now w.new }
{
    let start = *w;
    let mut rest = words::peek(bytes, w.packet_bit());
    let mut value: u64 = 0;
    let mut scale: u64 = 1;
    for k in 0u64..5 {
        w.need(8)?;
        w.advance(8);
        let byte = masks::low(8, rest);
        value += byte / 2 * scale;
        if byte % 2 == 0 {
            if value > 0xffff_ffff {
                return Err(BitError::IntPackedOverflow {
                    position: place_of(start),
                });
            }
            return Ok(value as u32);
        }
        rest /= 256;
        scale *= 128;
    }
    Err(BitError::MalformedIntPacked {
        position: place_of(start),
    })
}

fn floor_log2(max: u32) -> u32
    requires { 0 < max }
    ensures { (result ≡ log2 max) × (result < 32) × (2 ^ result ≤ max) × (2 ^ (result + 1) ≤ 2 ^ 32) }
{
    31 - u32::leading_zeros(max)
}

fn power(n: u32) -> u64
    requires { n < 32 }
    ensures { (result ≡ 2 ^ n) × (0 < result) }
{
    1 << n
}

// Whether no bit follows. The value and its power are below 2^32, so their sum is a word.
fn is_whole(value: u64, top: u64, max: u32) -> bool
    requires { (value < top) × (top ≤ max) }
    ensures { result ≡ leb max (value + top) }
{
    value + top >= max as u64
}

// How many bits a number takes whose lowest bits are the word's: for what reads it from a word, and for what writes it.
pub fn serialized_width(word: u64, max: u32) -> u64
    requires { 0 < max }
    ensures { (result ≡ serialized_width max word) × (result ≤ 32) }
{
    let width = floor_log2(max);
    let n = width as u64;
    let whole = is_whole(masks::low(n, word), power(width), max);
    n + only_if(!whole, 1)
}

// Both reads are of one peeked word: its low bits, and the bit above them.
pub fn serialized(bytes: &[u8], w: &mut Window, max: u32) -> Result<u32, BitError>
    requires { Sound bytes.now w.old × (0 < max) }
    ensures { (answer result w.new ≡ serialized max bytes.now w.old) × Sound bytes.now w.new }
{
    let width = floor_log2(max);
    let n = width as u64;
    w.need(n)?;
    let word = words::peek(bytes, w.packet_bit());
    let top = power(width);
    let value = masks::low(n, word);
    w.advance(n);
    if is_whole(value, top, max) {
        return Ok(value as u32);
    }
    // `need`, written out: where a cut top bit is told, and where the reader is left, is not where the number began.
    if w.left() < 1 {
        return Err(w.too_few_bits(1));
    }
    w.advance(1);
    Ok((value + only_if((word >> n) % 2 == 1, top)) as u32)
}
