// Bits into bytes, a word of eight bytes at a time: the Rust's `copy_bits_to` after its tests.
ghost use Rattle.std.specs.Prelude.{◌≡◌, ◌+◌, ◌*◌, ◌-◌, ◌≤◌, length};
ghost use Rattle.bitio_window.specs.Copies.{copied};
ghost use Rattle.bitio_bits.specs.Words.{stored};
ghost use Rattle.bitio_window.specs.Reads.{largest_data};

use crate::PacketBit;
use crate::inner::words;

// The m lowest bytes of a word.
pub fn store(target: &mut [u8], at: usize, word: u64, m: usize)
    requires { at + m ≤ length target.old }
    ensures { target.new ≡ stored target.old at word m }
{
    let mut rest = word;
    for j in 0..m {
        target[at + j] = (rest % 256) as u8;
        rest /= 256;
    }
}

pub fn copy_bits(bytes: &[u8], at: PacketBit, count: u64, target: &mut [u8])
    requires { (count ≤ 8 * length bytes.now - at.0)
        × (count ≤ 8 * length target.old)
        × (length bytes.now ≤ largest_data) }
    ensures { target.new ≡ copied target.old bytes.now at.0 count }
{
    // By its byte and the bits left: counted in words, LLVM saw no bytes that follow each other, and a copy of 500 kB from a byte's first
    // bit on took 1.5 times as long.
    let mut i: usize = 0;
    let mut left = count;
    while left >= 64 {
        let word = words::word_at(bytes, PacketBit(at.0 + 8 * i as u64));
        store(target, i, word, 8);
        i += 8;
        left -= 64;
    }
    let last = words::bits_at(bytes, PacketBit(at.0 + 8 * i as u64), left);
    store(target, i, last, left.div_ceil(8) as usize);
}
