// Bits into a packet, whole bytes at a time: those of a word, and those of a payload.
ghost use Rattle.std.specs.Prelude.{◌≡◌, ◌+◌, ◌*◌, ◌%◌, ◌≤◌, ◌<◌, length};
ghost use Rattle.types.specs.Types.{longest_packet_bits};
ghost use Rattle.writer_spelling.specs.Bits.{bits_from, put_bits};
ghost use Rattle.writer_spelling.specs.Words.{spelt, Whole};

use bitio_bits::inner::masks::low_by_shift;
use bitio_window::PacketBit;
use bitio_window::inner::{copy, words};
use writer_spelling::inner::Bits;

// A word's bits at bit `at`: the byte there is joined with what stands before the cursor.
pub fn push(packet: &mut [u8], at: u64, bits: Bits)
    requires { Whole bits × (0 < bits.count) × (at % 8 + bits.count ≤ 64) × (at + bits.count ≤ 8 * length packet.old) }
    ensures { packet.new ≡ put_bits packet.old at (spelt bits) }
{
    let place = (at / 8) as usize;
    let off = at % 8;
    let kept = low_by_shift(off, packet[place] as u64);
    copy::store(
        packet,
        place,
        kept + (bits.word << off),
        (off + bits.count).div_ceil(8) as usize,
    );
}

// The payload's next bits, and how many they were: what fills eight bytes from the cursor's on, and with fewer than 64 left what
// brings the cursor to a byte's start, or to the payload's end.
fn step(packet: &mut [u8], at: u64, payload: &[u8], from: u64, left: u64) -> u64
    requires { (0 < left) × (from + left ≤ 8 * length payload.now) × (at + left ≤ 8 * length packet.old) }
    ensures reached { (0 < result) × (result ≤ left) }
    ensures leaves { packet.new ≡ put_bits packet.old at (bits_from payload.now from result) }
{
    let off = at % 8;
    if left >= 64 {
        let eight = words::word_at(payload, PacketBit(from));
        if off == 0 {
            copy::store(packet, (at / 8) as usize, eight, 8);
            return 64;
        }
        let filling = 64 - off;
        let word = low_by_shift(filling, eight);
        push(
            packet,
            at,
            Bits {
                word,
                count: filling,
            },
        );
        return filling;
    }
    let count = left.min(56 - off);
    let word = low_by_shift(count, words::peek(payload, PacketBit(from)));
    push(packet, at, Bits { word, count });
    count
}

// The first `count` bits of a payload: a `while`, since a step tells how far it came.
pub fn payload(packet: &mut [u8], at: u64, payload: &[u8], count: u64)
    requires { (count ≤ 8 * length payload.now) × (at + count ≤ 8 * length packet.old) × (at + count ≤ longest_packet_bits) }
    ensures { packet.new ≡ put_bits packet.old at (bits_from payload.now 0 count) }
{
    let mut done = 0;
    while done < count {
        done += step(packet, at + done, payload, done, count - done);
    }
}
