// A bunch after what is written, where there is room for it.
ghost use Rattle.std.specs.Prelude.{◌≡◌, ◌++◌, ◌+◌, ◌*◌, ◌≤◌, ◌<◌, length};
ghost use Rattle.types.specs.Types.{close_reason_maximum, longest_packet_bits, longest_payload};
ghost use Rattle.writer_spelling.specs.Bits.{bits_from, put_bits};
ghost use Rattle.writer_spelling.specs.Header.{header_bits};
ghost use Rattle.writer_spelling.specs.Words.{spelt, Piece};
ghost use Rattle.writer.specs.Answers.{replied, appended};

use crate::WriteError;
use crate::inner::{push, room};
use bitio_window::PacketBit;
use packet_header::BunchFields;
use writer_spelling::inner::{Bits, words};

// The header's two words, as one where they fit into it.
fn lay_header(packet: &mut [u8], at: u64, front: Bits, back: Bits)
    requires { Piece front × Piece back × (at + front.count + back.count ≤ 8 * length packet.old) × (at ≤ longest_packet_bits) }
    ensures { packet.new ≡ put_bits (put_bits packet.old at (spelt front)) (at + front.count) (spelt back) }
{
    if front.count + back.count > 56 {
        push::push(packet, at, front);
        push::push(packet, at + front.count, back);
        return;
    }
    push::push(packet, at, front.add(back.word, back.count));
}

// The header and the payload.
fn lay(packet: &mut [u8], at: u64, front: Bits, back: Bits, payload: &[u8], count: u64)
    requires { Piece front
        × Piece back
        × (count ≤ 8 * length payload.now)
        × (at + front.count + back.count + count ≤ 8 * length packet.old)
        × (at + front.count + back.count + count ≤ longest_packet_bits) }
    ensures { packet.new
        ≡ put_bits (put_bits (put_bits packet.old at (spelt front)) (at + front.count) (spelt back))
        (at + front.count + back.count) (bits_from payload.now 0 count) }
{
    lay_header(packet, at, front, back);
    push::payload(packet, at + front.count + back.count, payload, count);
}

pub fn append(
    f: BunchFields,
    payload: &[u8],
    packet: &mut [u8],
    at: u64,
) -> Result<PacketBit, WriteError>
    requires { (f.close_reason < close_reason_maximum)
        × (f.payload_bit_count ≤ longest_payload)
        × (f.payload_bit_count ≤ 8 * length payload.now) }
    ensures { let bits = header_bits f ++ bits_from payload.now 0 f.payload_bit_count in
        replied result packet.new ≡ appended bits packet.old at (at + length bits) }
{
    let front = words::front(f);
    let back = words::back(f);
    let count = f.payload_bit_count as u64;
    let more = front.count + back.count + count;
    room::found(packet.len(), at, more)?;
    lay(packet, at, front, back, payload, count);
    Ok(PacketBit(at + more))
}
