// The public calls: a bunch at a cursor, and the end mark after the last one.
ghost use Rattle.std.specs.Prelude.{◌≡◌};
ghost use Rattle.writer.specs.Answers.{replied, write_bunch, close_packet};

use crate::WriteError;
use crate::inner::{append, push, room};
use bitio_window::PacketBit;
use types::{MAX_PAYLOAD_BITS, RawBunchHeader};
use writer_spelling::inner::{Bits, fields};

// The first `count` bits of a payload under a header: 5, 16, 11, 12 or 17 where they can't be written.
pub fn write_bunch(
    header: RawBunchHeader,
    payload: &[u8],
    count: u64,
    packet: &mut [u8],
    at: PacketBit,
) -> Result<PacketBit, WriteError>
    ensures { replied result packet.new ≡ write_bunch header payload.now count packet.old at.0 }
{
    room::reached(packet.len(), at.0)?;
    if !fields::writable(header) {
        return Err(WriteError::Unwritable);
    }
    if count > MAX_PAYLOAD_BITS {
        return Err(WriteError::PayloadTooLong { count });
    }
    if room::past(payload.len(), count) {
        return Err(WriteError::PayloadShort { count });
    }
    append::append(
        fields::fields_of(header, count as u32),
        payload,
        packet,
        at.0,
    )
}

// The end mark and zeros to its byte's end: 5 or 17 where there is no room for it.
pub fn close_packet(packet: &mut [u8], at: PacketBit) -> Result<PacketBit, WriteError>
    ensures { replied result packet.new ≡ close_packet packet.old at.0 }
{
    room::reached(packet.len(), at.0)?;
    room::found(packet.len(), at.0, 1)?;
    push::push(packet, at.0, Bits { word: 1, count: 1 });
    Ok(PacketBit(8 * (at.0 / 8 + 1)))
}
