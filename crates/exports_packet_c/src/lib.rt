// The packet reader's calls as C finds them: those of `exports_packet`, which says what their words are.
#![tactic(auto)]

ghost use Rattle.std.specs.Prelude.{◌≡◌};
ghost use Rattle.packet_reading.specs.Memory.{reader_memory, reader_of};
ghost use Rattle.packet.specs.Answers.{opened_reader, read_bunch};
ghost use Rattle.exports_packet.specs.Packets.{bunch_words, reader_words};

use exports_packet::bunches::{BunchWords, ReaderWords};
use exports_packet::packets;

#[unsafe(no_mangle)]
pub extern "C" fn gritwheel_with_max_channels(
    max_channels: usize,
    sequence_channels: &[u32],
    sequence_numbers: &[u32],
    partial_channels: &[u32],
    partial_sequences: &[u32],
    partial_reliables: &[u32],
    out: &mut ReaderWords,
)
    ensures { let before = reader_memory sequence_channels.now sequence_numbers.now
        partial_channels.now partial_sequences.now partial_reliables.now in
        out.new ≡ reader_words (opened_reader max_channels before) }
{
    packets::gritwheel_with_max_channels(
        max_channels,
        sequence_channels,
        sequence_numbers,
        partial_channels,
        partial_sequences,
        partial_reliables,
        out,
    );
}

#[unsafe(no_mangle)]
pub extern "C" fn gritwheel_read_bunch(
    packet: &[u8],
    packet_id: i32,
    at: u64,
    max_channels: usize,
    sequences: usize,
    partials: usize,
    sequence_channels: &mut [u32],
    sequence_numbers: &mut [u32],
    partial_channels: &mut [u32],
    partial_sequences: &mut [u32],
    partial_reliables: &mut [u32],
    out: &mut BunchWords,
)
    ensures { let before = reader_memory sequence_channels.old sequence_numbers.old
        partial_channels.old partial_sequences.old partial_reliables.old in
        let after = reader_memory sequence_channels.new sequence_numbers.new
        partial_channels.new partial_sequences.new partial_reliables.new in
        let reply = read_bunch packet.now packet_id at (reader_of max_channels sequences partials) before in
        (out.new ≡ bunch_words reply) × (after ≡ reply.memory) }
{
    packets::gritwheel_read_bunch(
        packet,
        packet_id,
        at,
        max_channels,
        sequences,
        partials,
        sequence_channels,
        sequence_numbers,
        partial_channels,
        partial_sequences,
        partial_reliables,
        out,
    );
}
