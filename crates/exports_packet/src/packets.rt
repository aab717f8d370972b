// The packet reader. Opening writes four words, reading a bunch 34; the tables are five lent columns.
ghost use Rattle.std.specs.Prelude.{◌≡◌};
ghost use Rattle.packet_reading.specs.Memory.{reader_memory, reader_of};
ghost use Rattle.packet.specs.Answers.{opened_reader, read_bunch};
ghost use Rattle.exports_packet.specs.Packets.{bunch_words, reader_words};

use crate::bunches;
use crate::bunches::{BunchWords, ReaderWords};
use bitio_window::PacketBit;
use packet::packets;
use packet_reading::{RawPacketReader, ReaderColumns};

pub fn gritwheel_with_max_channels(
    max_channels: usize,
    sequence_channels: &[u32],
    sequence_numbers: &[u32],
    partial_channels: &[u32],
    partial_sequences: &[u32],
    partial_reliables: &[u32],
    out: &mut ReaderWords,
)
    ensures { let before = reader_memory sequence_channels.now sequence_numbers.now
        partial_channels.now partial_sequences.now partial_reliables.now in
        out.new ≡ reader_words (opened_reader max_channels before) }
{
    let opened = packets::with_max_channels(
        max_channels,
        sequence_channels,
        sequence_numbers,
        partial_channels,
        partial_sequences,
        partial_reliables,
    );
    *out = bunches::of_opened(opened);
}

pub fn gritwheel_read_bunch(
    packet: &[u8],
    packet_id: i32,
    at: u64,
    max_channels: usize,
    sequences: usize,
    partials: usize,
    sequence_channels: &mut [u32],
    sequence_numbers: &mut [u32],
    partial_channels: &mut [u32],
    partial_sequences: &mut [u32],
    partial_reliables: &mut [u32],
    out: &mut BunchWords,
)
    ensures { let before = reader_memory sequence_channels.old sequence_numbers.old
        partial_channels.old partial_sequences.old partial_reliables.old in
        let after = reader_memory sequence_channels.new sequence_numbers.new
        partial_channels.new partial_sequences.new partial_reliables.new in
        let reply = read_bunch packet.now packet_id at (reader_of max_channels sequences partials) before in
        (out.new ≡ bunch_words reply) × (after ≡ reply.memory) }
{
    let mut cursor = PacketBit(at);
    let mut reader = RawPacketReader {
        max_channels,
        live_sequences: sequences,
        live_partials: partials,
    };
    let mut columns = ReaderColumns {
        sequence_channels,
        sequence_numbers,
        partial_channels,
        partial_sequences,
        partial_reliables,
    };
    let read = packets::read_bunch(packet, packet_id, &mut cursor, &mut reader, &mut columns);
    *out = bunches::of_read(read, cursor, reader);
}
