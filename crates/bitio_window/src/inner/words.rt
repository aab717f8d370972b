// Loads of eight bytes, and the bits at a place: the Rust's `load_u64` and the middle of its `read_bits`.
ghost use Rattle.std.specs.Prelude.{◌≡◌, ◌+◌, ◌*◌, ◌-◌, ◌≤◌, ◌<◌, ◌^◌, eqb, length};
ghost use Rattle.bitio_bits.specs.Bits.{bits_at};
ghost use Rattle.bitio_bits.specs.Words.{eight_at, Peeked};

use crate::PacketBit;
use bitio_bits::inner::masks;

fn byte(x: u8) -> u64
    ensures { (result ≡ x) × (result < 256) }
{
    x as u64
}

// It compiles to one load of eight bytes.
fn eight(bytes: &[u8], at: usize) -> u64
    requires { at + 8 ≤ length bytes.now }
    ensures { result ≡ eight_at bytes.now at }
{
    u64::from_le_bytes([
        bytes[at],
        bytes[at + 1],
        bytes[at + 2],
        bytes[at + 3],
        bytes[at + 4],
        bytes[at + 5],
        bytes[at + 6],
        bytes[at + 7],
    ])
}

// Fewer than eight are left, or none. A loop, since few loads run out of the data: it keeps the others short.
fn eight_padded(bytes: &[u8], at: usize) -> u64
    requires { length bytes.now < at + 8 }
    ensures { result ≡ eight_at bytes.now at }
{
    let mut word: u64 = 0;
    for i in (at..bytes.len()).rev() {
        word = 256 * word + byte(bytes[i]);
    }
    word
}

// The eight bytes from `at` on as one number, zeros past the end.
fn load_u64(bytes: &[u8], at: usize) -> u64
    requires { at < 2 ^ 61 }
    ensures { result ≡ eight_at bytes.now at }
{
    if bytes.len() < at + 8 {
        return eight_padded(bytes, at);
    }
    eight(bytes, at)
}

// A word whose low bits, 57 or more, are those from bit `at` on, zeros past the end.
pub fn peek(bytes: &[u8], at: PacketBit) -> u64
    ensures { Peeked bytes.now at.0 result }
{
    load_u64(bytes, (at.0 / 8) as usize) >> (at.0 % 8)
}

pub fn bit_at(bytes: &[u8], at: PacketBit) -> bool
    requires { at.0 < 8 * length bytes.now }
    ensures { result ≡ eqb (bits_at bytes.now at.0 1) 1 }
{
    let place = (at.0 / 8) as usize;
    (byte(bytes[place]) >> (at.0 % 8)) % 2 == 1
}

// The number that `count` bits from bit `at` on make.
pub fn bits_at(bytes: &[u8], at: PacketBit, count: u64) -> u64
    requires { (count ≤ 8 * length bytes.now - at.0) × (count ≤ 64) }
    ensures { (result ≡ bits_at bytes.now at.0 count) × (result < 2 ^ count) }
{
    let place = (at.0 / 8) as usize;
    let off = at.0 % 8;
    let word = load_u64(bytes, place) >> off;
    let got = 64 - off;
    if count <= got {
        return masks::low(count, word);
    }
    let high = byte(bytes[place + 8]);
    masks::low(count, word + (high << got))
}

// Eight bytes' worth of bits, where they are all there: no load can run out of the data.
pub fn word_at(bytes: &[u8], at: PacketBit) -> u64
    requires { 64 ≤ 8 * length bytes.now - at.0 }
    ensures { result ≡ bits_at bytes.now at.0 64 }
{
    let place = (at.0 / 8) as usize;
    let off = at.0 % 8;
    let word = eight(bytes, place) >> off;
    if off == 0 {
        return word;
    }
    word + (byte(bytes[place + 8]) << (64 - off))
}
