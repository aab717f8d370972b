// Calls with plain parameters that go through a reader: a caller sees a slice and a window, and needs nothing of a reader. One for each
// method, so that each is compared with the Rust (`exports_reader`).
ghost use Rattle.std.specs.Prelude.{◌≡◌, length};
ghost use Rattle.std.specs.Fn.{FnOnceReturnsAtMut};
ghost use Rattle.bitio_window.specs.Places.{packet_bit};
ghost use Rattle.bitio_window.specs.Reads.{read_bit, read_bits, read_i32, read_f32, read_f64};
ghost use Rattle.bitio_window.specs.Numbers.{read_packed, read_serialized};
ghost use Rattle.bitio_window.specs.Windows.{new_window, with_bit_len, bits_remaining, at_end, sub_reader, skip_bits, skip_remaining};
ghost use Rattle.bitio_window.specs.Answers.{answer, answer_of, outcome, decoded_of};
ghost use Rattle.bitio_window.specs.Copies.{copy_bits, copy_leaves};
ghost use Rattle.bitio_reader.specs.declared.BitReader.{BitReader};

use crate::BitReader;
use bitio_window::{BitError, F32, F64, Window};

// A call of a reader over the packet that stands at a window, and the window moved to where it left the reader.
fn through<'a, T, F: FnOnce(&mut BitReader<'a>) -> T>(
    packet: &'a [u8],
    w: &mut Window,
    call: F,
) -> T
    requires { F.IsAlwaysCallable call }
    ensures { (left : BitReader)
        × FnOnceReturnsAtMut F.FnOnce call (record { packet = packet.entry; window = w.old }) result left
        × (w.new ≡ left.window) }
{
    let mut reader = BitReader { packet, window: *w };
    let answer = call(&mut reader);
    *w = reader.window;
    answer
}

pub fn new(packet: &[u8]) -> Result<Window, BitError>
    ensures { outcome result ≡ new_window packet.now }
{
    let reader = BitReader::new(packet)?;
    Ok(reader.window)
}

pub fn with_bit_len(packet: &[u8], bit_len: u64) -> Result<Window, BitError>
    ensures { outcome result ≡ with_bit_len packet.now bit_len }
{
    let reader = BitReader::with_bit_len(packet, bit_len)?;
    Ok(reader.window)
}

pub fn position(packet: &[u8], window: Window) -> u64
    ensures { result ≡ window.position.0 }
{
    BitReader { packet, window }.position()
}

pub fn len_bits(packet: &[u8], window: Window) -> u64
    ensures { result ≡ window.length }
{
    BitReader { packet, window }.len_bits()
}

pub fn bits_remaining(packet: &[u8], window: Window) -> Result<u64, BitError>
    ensures { outcome result ≡ bits_remaining window }
{
    BitReader { packet, window }.bits_remaining()
}

pub fn at_end(packet: &[u8], window: Window) -> bool
    ensures { result ≡ at_end window }
{
    BitReader { packet, window }.at_end()
}

pub fn read_bit(packet: &[u8], w: &mut Window) -> Result<bool, BitError>
    ensures { answer result w.new ≡ read_bit packet.now w.old }
{
    through(packet, w, |reader| reader.read_bit())
}

pub fn read_bits(packet: &[u8], w: &mut Window, count: u32) -> Result<u64, BitError>
    ensures { answer result w.new ≡ read_bits count packet.now w.old }
{
    through(packet, w, |reader| reader.read_bits(count))
}

pub fn read_u8(packet: &[u8], w: &mut Window) -> Result<u8, BitError>
    ensures { answer result w.new ≡ read_bits 8 packet.now w.old }
{
    through(packet, w, |reader| reader.read_u8())
}

pub fn read_u16(packet: &[u8], w: &mut Window) -> Result<u16, BitError>
    ensures { answer result w.new ≡ read_bits 16 packet.now w.old }
{
    through(packet, w, |reader| reader.read_u16())
}

pub fn read_u32(packet: &[u8], w: &mut Window) -> Result<u32, BitError>
    ensures { answer result w.new ≡ read_bits 32 packet.now w.old }
{
    through(packet, w, |reader| reader.read_u32())
}

pub fn read_i32(packet: &[u8], w: &mut Window) -> Result<i32, BitError>
    ensures { answer result w.new ≡ read_i32 packet.now w.old }
{
    through(packet, w, |reader| reader.read_i32())
}

pub fn read_u64(packet: &[u8], w: &mut Window) -> Result<u64, BitError>
    ensures { answer result w.new ≡ read_bits 64 packet.now w.old }
{
    through(packet, w, |reader| reader.read_u64())
}

pub fn read_f32(packet: &[u8], w: &mut Window) -> Result<F32, BitError>
    ensures { answer_of decoded_of result w.new ≡ read_f32 packet.now w.old }
{
    through(packet, w, |reader| reader.read_f32())
}

pub fn read_f64(packet: &[u8], w: &mut Window) -> Result<F64, BitError>
    ensures { answer_of decoded_of result w.new ≡ read_f64 packet.now w.old }
{
    through(packet, w, |reader| reader.read_f64())
}

pub fn read_int_packed(packet: &[u8], w: &mut Window) -> Result<u32, BitError>
    ensures { answer result w.new ≡ read_packed packet.now w.old }
{
    through(packet, w, |reader| reader.read_int_packed())
}

pub fn read_serialized_int(packet: &[u8], w: &mut Window, max: u32) -> Result<u32, BitError>
    ensures { answer result w.new ≡ read_serialized max packet.now w.old }
{
    through(packet, w, |reader| reader.read_serialized_int(max))
}

// Not `through`: no contract says what a closure leaves in the target that it holds.
pub fn copy_bits_to(
    packet: &[u8],
    w: &mut Window,
    target: &mut [u8],
    count: u64,
) -> Result<(), BitError>
    ensures answers { answer result w.new ≡ copy_bits (length target.old) count packet.now w.old }
    ensures leaves { target.new ≡ copy_leaves (answer result w.new) target.old packet.now (packet_bit w.old).0 count }
{
    let mut reader = BitReader { packet, window: *w };
    let answer = reader.copy_bits_to(target, count);
    *w = reader.window;
    answer
}

// Not `through`: no proof is made of a closure that answers what holds a reference.
pub fn sub_reader(packet: &[u8], w: &mut Window, count: u64) -> Result<Window, BitError>
    ensures { answer result w.new ≡ sub_reader count packet.now w.old }
{
    let mut reader = BitReader { packet, window: *w };
    let child = reader.sub_reader(count);
    *w = reader.window;
    Ok(child?.window)
}

pub fn skip_bits(packet: &[u8], w: &mut Window, count: u64) -> Result<(), BitError>
    ensures { answer result w.new ≡ skip_bits count packet.now w.old }
{
    through(packet, w, |reader| reader.skip_bits(count))
}

pub fn skip_remaining(packet: &[u8], w: &mut Window) -> Result<(), BitError>
    ensures { answer result w.new ≡ skip_remaining packet.now w.old }
{
    through(packet, w, |reader| reader.skip_remaining())
}
