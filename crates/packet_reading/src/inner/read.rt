// The bunch at a cursor: the Rust's `read_packet`, one turn of its loop.
ghost use Rattle.std.specs.Prelude.{◌≡◌, ◌+◌, ◌≤◌, length, false};
ghost use Rattle.types.specs.Types.{longest_packet, longest_packet_bits};
ghost use Rattle.packet_reading.specs.declared.RawPacketReader.{RawPacketReader};
ghost use Rattle.packet_reading.specs.Packet as P;
ghost use Rattle.packet_reading.specs.Packet.{retires};
ghost use Rattle.packet_reading.specs.Memory.{ReaderMemory, columns_memory, SameColumns, reader_tables};
ghost use Rattle.packet_reading.specs.Answers.{of_read, read_reply};
ghost use Rattle.packet_reading.specs.State.{ReaderSound};
ghost use Rattle.packet_reading.specs.Turns.{bunch_handed_out, stopping, settles, finishes};

use crate::inner::bunch;
use crate::{Bunch, BunchRead, RawPacketReader, ReaderColumns};
use bitio_window::{PacketBit, Window, WindowBit};
use packet_header::{BunchFields, inner};
use packet_tracking::inner::partials::Tracked;
use packet_tracking::inner::sequences::Numbered;
use packet_tracking::inner::{partials, retire, sequences};

fn retires(f: BunchFields) -> bool
    ensures { result ≡ retires f }
{
    f.b_close & (f.close_reason != 1)
}

// The payload begins at the cursor, which goes past it.
fn handed_out(f: BunchFields, id: u32, at: &mut PacketBit, n: Numbered, k: Tracked) -> BunchRead
    requires { at.old.0 + f.payload_bit_count ≤ longest_packet_bits }
    ensures { (r : RawPacketReader) (m : ReaderMemory) → of_read result at.new r m
        ≡ bunch_handed_out f id at.old.0 n.sequence n.limited k.error k.completed r.live_sequences r.live_partials m }
{
    let header = bunch::header_of(f, id, at.0, n, k);
    let payload = Window {
        start: *at,
        position: WindowBit(0),
        length: u64::from(f.payload_bit_count),
    };
    *at = PacketBit(at.0 + payload.length);
    BunchRead {
        answer: Bunch::Read { header, payload },
        bunches: 1,
        malformed_packets: 0,
        partial_errors: u32::from(k.error),
        channel_limits: u32::from(n.limited),
    }
}

fn end(at: &mut PacketBit, bits: u64) -> BunchRead
    ensures { (r : RawPacketReader) (m : ReaderMemory) → of_read result at.new r m
        ≡ stopping P.end bits 0 false r.live_sequences r.live_partials m }
{
    *at = PacketBit(bits);
    BunchRead {
        answer: Bunch::End,
        bunches: 0,
        malformed_packets: 0,
        partial_errors: 0,
        channel_limits: 0,
    }
}

fn malformed(at: &mut PacketBit, bits: u64, limited: bool) -> BunchRead
    ensures { (r : RawPacketReader) (m : ReaderMemory) → of_read result at.new r m
        ≡ stopping P.malformed bits 1 limited r.live_sequences r.live_partials m }
{
    *at = PacketBit(bits);
    BunchRead {
        answer: Bunch::Malformed,
        bunches: 0,
        malformed_packets: 1,
        partial_errors: 0,
        channel_limits: u32::from(limited),
    }
}

// The payload fits: the tracking, and the close.
fn settle(
    f: BunchFields,
    id: u32,
    at: &mut PacketBit,
    n: Numbered,
    reader: &mut RawPacketReader,
    columns: &mut ReaderColumns<'_>,
) -> BunchRead
    requires { ReaderSound reader.old (columns_memory columns.old)
        × (at.old.0 + f.payload_bit_count ≤ longest_packet_bits) }
    ensures same { SameColumns columns.old columns.new }
    ensures reply { let r = reader.old in
        (of_read result at.new reader.new (columns_memory columns.new)
        ≡ settles r.max_channels r.live_sequences r.live_partials f id at.old.0 n.sequence n.limited (columns_memory columns.old))
        × (reader.new.max_channels ≡ r.max_channels) }
{
    let limit = reader.max_channels;
    let k = partials::track(
        columns.partial_channels,
        columns.partial_sequences,
        columns.partial_reliables,
        &mut reader.live_partials,
        limit,
        f,
        n.sequence,
        n.limited,
    );
    if retires(f) {
        sequences::retire_sequence(
            columns.sequence_channels,
            columns.sequence_numbers,
            &mut reader.live_sequences,
            f.ch_index,
        );
        retire::retire_partial(
            columns.partial_channels,
            columns.partial_sequences,
            columns.partial_reliables,
            &mut reader.live_partials,
            f.ch_index,
        );
        return handed_out(f, id, at, n, k);
    }
    handed_out(f, id, at, n, k)
}

// From the header on, behind which the cursor stands: the sequence, and the payload compared with what remains.
fn finish(
    f: BunchFields,
    id: u32,
    at: &mut PacketBit,
    end: u64,
    reader: &mut RawPacketReader,
    columns: &mut ReaderColumns<'_>,
) -> BunchRead
    requires { ReaderSound reader.old (columns_memory columns.old)
        × (at.old.0 ≤ end)
        × (end ≤ longest_packet_bits) }
    ensures same { SameColumns columns.old columns.new }
    ensures reply { let r = reader.old in
        (of_read result at.new reader.new (columns_memory columns.new)
        ≡ finishes r.max_channels r.live_sequences r.live_partials end f id at.old.0 (columns_memory columns.old))
        × (reader.new.max_channels ≡ r.max_channels) }
{
    let limit = reader.max_channels;
    let n = bunch::number(
        columns.sequence_channels,
        columns.sequence_numbers,
        &mut reader.live_sequences,
        limit,
        f,
        id,
    );
    if end - at.0 < u64::from(f.payload_bit_count) {
        return malformed(at, end, n.limited);
    }
    settle(f, id, at, n, reader, columns)
}

// For callers that have tested the tables once.
pub fn read(
    packet: &[u8],
    id: u32,
    at: &mut PacketBit,
    reader: &mut RawPacketReader,
    columns: &mut ReaderColumns<'_>,
) -> BunchRead
    requires { ReaderSound reader.old (columns_memory columns.old)
        × (length packet.now ≤ longest_packet)
        × (at.old.0 ≤ P.data_bits packet.now) }
    ensures same { SameColumns columns.old columns.new }
    ensures reply { let before = columns_memory columns.old in
        let after = columns_memory columns.new in
        let bunch = P.next_bunch reader.old.max_channels packet.now id at.old.0 (reader_tables reader.old before) in
        (of_read result at.new reader.new after ≡ read_reply bunch before)
        × (reader.new.max_channels ≡ reader.old.max_channels)
        × ReaderSound reader.new after }
{
    let size = packet.len();
    if size == 0 {
        return end(at, 0);
    }
    if packet[size - 1] == 0 {
        return malformed(at, 0, false);
    }
    let bits = bunch::data_bits(packet);
    if bits <= at.0 {
        return end(at, bits);
    }
    let mut w = Window {
        start: PacketBit(0),
        position: WindowBit(at.0),
        length: bits,
    };
    match inner::read_fields(packet, &mut w) {
        Ok(f) => {
            *at = PacketBit(w.position.0);
            finish(f, id, at, bits, reader, columns)
        }
        Err(_) => malformed(at, bits, false),
    }
}
