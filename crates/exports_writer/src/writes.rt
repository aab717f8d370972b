// The two calls, over a packet that is lent.
ghost use Rattle.std.specs.Prelude.{◌≡◌};
ghost use Rattle.writer.specs.Answers.{write_bunch, close_packet};
ghost use Rattle.exports_writer.specs.Words.{written_words, reason_if, written_header};

use crate::words;
use crate::words::WrittenWords;
use bitio_window::PacketBit;
use types::{ChannelCloseReason, RawBunchHeader};
use writer::writing;

fn reason(dormancy: bool) -> ChannelCloseReason
    ensures { result ≡ reason_if dormancy }
{
    if dormancy {
        ChannelCloseReason::Dormancy
    } else {
        ChannelCloseReason::Destroyed
    }
}

// The header in the parts of it that are written or judged; `dormancy` is its close reason.
#[unsafe(no_mangle)]
pub extern "C" fn gritwheel_write_bunch(
    ch_index: u32,
    b_open: bool,
    b_close: bool,
    b_dormant: bool,
    dormancy: bool,
    b_is_replication_paused: bool,
    b_reliable: bool,
    b_partial: bool,
    b_partial_initial: bool,
    b_partial_final: bool,
    b_has_package_map_exports: bool,
    b_has_must_be_mapped_guids: bool,
    payload: &[u8],
    count: u64,
    packet: &mut [u8],
    at: u64,
    out: &mut WrittenWords,
)
    ensures { let header = written_header ch_index b_open b_close b_dormant dormancy b_is_replication_paused b_reliable
        b_partial b_partial_initial b_partial_final b_has_package_map_exports b_has_must_be_mapped_guids in
        let reply = write_bunch header payload.now count packet.old at in
        (out.new ≡ written_words reply.answer) × (packet.new ≡ reply.packet) }
{
    let header = RawBunchHeader {
        packet_id: 0,
        ch_index,
        b_open,
        b_close,
        b_dormant,
        b_is_replication_paused,
        b_reliable,
        b_partial,
        b_partial_initial,
        b_partial_final,
        b_has_package_map_exports,
        b_has_must_be_mapped_guids,
        ch_sequence: 0,
        close_reason: reason(dormancy),
        payload_bit_count: 0,
        payload_bit_offset: 0,
        has_partial_error: false,
        partial_error_kind: None,
        is_partial_completed: false,
        has_channel_limit_error: false,
    };
    *out = words::of_written(writing::write_bunch(header, payload, count, packet, PacketBit(at)));
}

#[unsafe(no_mangle)]
pub extern "C" fn gritwheel_close_packet(packet: &mut [u8], at: u64, out: &mut WrittenWords)
    ensures { let reply = close_packet packet.old at in
        (out.new ≡ written_words reply.answer) × (packet.new ≡ reply.packet) }
{
    *out = words::of_written(writing::close_packet(packet, PacketBit(at)));
}
