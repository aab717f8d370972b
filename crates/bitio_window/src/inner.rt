// The reads of `bitio` of a given width, and its moves, for the project's own crates: what the tests before them show is required.
ghost use Rattle.std.specs.Prelude.{◌≡◌, List, ℕ, ◌-◌, ◌≤◌, ◌<◌, ◌^◌, length, OnOk, IfErr};
ghost use Rattle.bitio_window.specs.Refusals.{place_of, paper, too_few_bits};
ghost use Rattle.bitio_window.specs.Parse.{advanced};
ghost use Rattle.bitio_window.specs.Places.{packet_bit};
ghost use Rattle.bitio_window.specs.Reads.{skip, bit, bits};
ghost use Rattle.bitio_window.specs.Answers.{answer};
ghost use Rattle.bitio_window.specs.Windows.{moved_to_end, sub};
ghost use Rattle.bitio_window.specs.Sound.{Sound};

use crate::{BitError, PacketBit, Window, WindowBit, place_of};

pub mod copy;
pub mod numbers;
pub mod words;

impl Window {
    // The next bit's place in the packet.
    pub fn packet_bit(self) -> PacketBit
        requires { 0 < self.position.0 → (packet_bit self).0 < 2 ^ 64 }
        ensures { result ≡ packet_bit self }
    {
        PacketBit(self.start.0 + self.position.0)
    }

    // How many bits are left.
    pub fn left(self) -> u64
        requires { self.position.0 ≤ self.length }
        ensures { result ≡ self.length - self.position.0 }
    {
        self.length - self.position.0
    }

    // On by n bits.
    pub fn advance(&mut self, n: u64)
        requires { n ≤ self.old.length - self.old.position.0 }
        ensures { self.new ≡ advanced self.old n }
    {
        self.position = WindowBit(self.position.0 + n);
    }

    // To the window's end.
    pub fn move_to_end(&mut self)
        ensures { self.new ≡ moved_to_end self.old }
    {
        self.position = WindowBit(self.length);
    }

    // 1, with the reader where it stands.
    pub fn too_few_bits(self, requested: u64) -> BitError
        ensures { paper result ≡ too_few_bits (place_of self) self.length requested }
    {
        BitError::Eof {
            position: place_of(self),
            length: self.length,
            requested,
        }
    }

    // Nothing where n bits are left, or else 1.
    pub fn need(self, n: u64) -> Result<(), BitError>
        requires { self.position.0 ≤ self.length }
        ensures there { OnOk result (n ≤ self.length - self.position.0) }
        ensures short { IfErr result (λ e. (self.length - self.position.0 < n) × (paper e ≡ too_few_bits (place_of self) self.length n)) }
    {
        if self.left() < n {
            return Err(self.too_few_bits(n));
        }
        Ok(())
    }
}

// No bit is looked at, so the answer is the same for all data.
pub fn skip(w: &mut Window, count: u64) -> Result<(), BitError>
    requires { w.old.position.0 ≤ w.old.length }
    ensures { (d : List ℕ) → answer result w.new ≡ skip count d w.old }
{
    w.need(count)?;
    w.advance(count);
    Ok(())
}

// The next bits as a window of their own.
pub fn sub(w: &mut Window, count: u64) -> Result<Window, BitError>
    requires { (w.old.position.0 ≤ w.old.length) × (0 < w.old.position.0 → (packet_bit w.old).0 < 2 ^ 64) }
    ensures { (d : List ℕ) → answer result w.new ≡ sub count d w.old }
{
    w.need(count)?;
    let child = Window {
        start: w.packet_bit(),
        position: WindowBit(0),
        length: count,
    };
    w.advance(count);
    Ok(child)
}

pub fn bits(bytes: &[u8], w: &mut Window, count: u32) -> Result<u64, BitError>
    requires { Sound bytes.now w.old × (count ≤ 64) }
    ensures { (answer result w.new ≡ bits count bytes.now w.old) × Sound bytes.now w.new }
{
    let n = count as u64;
    w.need(n)?;
    let value = words::bits_at(bytes, w.packet_bit(), n);
    w.advance(n);
    Ok(value)
}

pub fn bit(bytes: &[u8], w: &mut Window) -> Result<bool, BitError>
    requires { Sound bytes.now w.old }
    ensures { (answer result w.new ≡ bit bytes.now w.old) × Sound bytes.now w.new }
{
    w.need(1)?;
    let value = words::bit_at(bytes, w.packet_bit());
    w.advance(1);
    Ok(value)
}
