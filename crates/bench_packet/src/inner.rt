// One bunch over tables that the caller has tested, for bench/ to time: what the test costs is the difference to the public call.
ghost use Rattle.std.specs.Prelude.{◌≡◌, ◌≤◌, length};
ghost use Rattle.types.specs.Types.{longest_packet};
ghost use Rattle.packet_reading.specs.Packet.{data_bits, next_bunch};
ghost use Rattle.packet_reading.specs.Memory.{reader_memory, tables_of};
ghost use Rattle.packet_reading.specs.State.{TablesSound};
ghost use Rattle.packet_reading.specs.Answers.{read_reply};
ghost use Rattle.exports_packet.specs.Packets.{bunch_words};

use bitio_window::PacketBit;
use exports_packet::bunches;
use exports_packet::bunches::BunchWords;
use packet_reading::inner::read;
use packet_reading::{RawPacketReader, ReaderColumns};

#[unsafe(no_mangle)]
pub extern "C" fn timing_read_bunch(
    packet: &[u8],
    id: u32,
    at: u64,
    max_channels: usize,
    sequences: usize,
    partials: usize,
    sequence_channels: &mut [u32],
    sequence_numbers: &mut [u32],
    partial_channels: &mut [u32],
    partial_sequences: &mut [u32],
    partial_reliables: &mut [u32],
    out: &mut BunchWords,
)
    requires { let memory = reader_memory sequence_channels.old sequence_numbers.old
        partial_channels.old partial_sequences.old partial_reliables.old in
        TablesSound max_channels sequences partials memory
        × (length packet.now ≤ longest_packet)
        × (at ≤ data_bits packet.now) }
    ensures { let before = reader_memory sequence_channels.old sequence_numbers.old
        partial_channels.old partial_sequences.old partial_reliables.old in
        let after = reader_memory sequence_channels.new sequence_numbers.new
        partial_channels.new partial_sequences.new partial_reliables.new in
        let reply = read_reply (next_bunch max_channels packet.now id at (tables_of sequences partials before)) before in
        (out.new ≡ bunch_words reply) × (after ≡ reply.memory) }
{
    let mut cursor = PacketBit(at);
    let mut reader = RawPacketReader {
        max_channels,
        live_sequences: sequences,
        live_partials: partials,
    };
    let mut columns = ReaderColumns {
        sequence_channels,
        sequence_numbers,
        partial_channels,
        partial_sequences,
        partial_reliables,
    };
    let read = read::read(packet, id, &mut cursor, &mut reader, &mut columns);
    *out = bunches::of_read(Ok(read), cursor, reader);
}
