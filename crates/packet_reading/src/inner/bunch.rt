// One bunch after its header's bits: its sequence, the overrun, its tracking, and the close. The Rust's `read_packet`, one turn.
ghost use Rattle.std.specs.Prelude.{◌≡◌, ◌*◌, ◌≤◌, ◌<◌, length};
ghost use Rattle.std.specs.Int.Count.{count_leading_zeros};
ghost use Rattle.bitio_window.specs.Reads.{largest_data};
ghost use Rattle.packet_tracking.specs.Sequences.{unreliable, numbered};
ghost use Rattle.packet_reading.specs.Packet.{data_bits, header};
ghost use Rattle.packet_tracking.specs.SequenceColumns.{sequences_at, numbered_in, sequences_laid};
ghost use Rattle.packet_tracking.specs.Fits.{TableFits};

use bitio_bits::inner::signed;
use packet_header::BunchFields;
use packet_tracking::inner::partials::Tracked;
use packet_tracking::inner::sequences::Numbered;
use types::{ChannelCloseReason, RawBunchHeader};

// The zeros above the highest set bit of the last byte.
fn padding(last: u8) -> u64
    requires { 0 < last }
    ensures { (result ≡ count_leading_zeros 8 last) × (result ≤ 7) }
{
    u64::from(last.leading_zeros())
}

// The bits before the end mark, 0 without one: the Rust's `compute_bit_size`.
pub fn data_bits(packet: &[u8]) -> u64
    requires { length packet.now ≤ largest_data }
    ensures { (result ≡ data_bits packet.now) × (result ≤ 8 * length packet.now) }
{
    let size = packet.len();
    if size == 0 {
        return 0;
    }
    let last = packet[size - 1];
    if last == 0 {
        return 0;
    }
    8 * size as u64 - 1 - padding(last)
}

fn unreliable(f: BunchFields, id: u32) -> u32
    ensures { result ≡ unreliable f id }
{
    if f.b_partial { id } else { 0 }
}

pub fn number(
    channels: &mut [u32],
    numbers: &mut [u32],
    live: &mut usize,
    limit: usize,
    f: BunchFields,
    id: u32,
) -> Numbered
    requires { TableFits limit live.old channels.old × (limit ≤ length numbers.old) }
    ensures { let numbering = numbered limit id f (sequences_at live.old channels.old numbers.old) in
        numbered_in result live.new channels.new numbers.new
        ≡ sequences_laid numbering channels.old numbers.old }
{
    if f.b_reliable {
        return packet_tracking::inner::sequences::reliably(
            channels, numbers, live, limit, f.ch_index,
        );
    }
    Numbered {
        sequence: unreliable(f, id),
        limited: false,
    }
}

pub fn header_of(f: BunchFields, id: u32, position: u64, n: Numbered, k: Tracked) -> RawBunchHeader
    ensures { result ≡ header f id position n.sequence n.limited k.error k.completed }
{
    let packet_id = signed::of_word(id);
    let ch_sequence = signed::of_word(n.sequence);
    let close_reason = ChannelCloseReason::from_raw(u64::from(f.close_reason));
    RawBunchHeader {
        packet_id,
        ch_index: f.ch_index,
        b_open: f.b_open,
        b_close: f.b_close,
        b_dormant: f.close_reason == 1,
        b_is_replication_paused: f.b_is_replication_paused,
        b_reliable: f.b_reliable,
        b_partial: f.b_partial,
        b_partial_initial: f.b_partial_initial,
        b_partial_final: f.b_partial_final,
        b_has_package_map_exports: f.b_has_package_map_exports,
        b_has_must_be_mapped_guids: f.b_has_must_be_mapped_guids,
        ch_sequence,
        close_reason,
        payload_bit_count: f.payload_bit_count,
        payload_bit_offset: position,
        has_partial_error: k.error,
        partial_error_kind: None,
        is_partial_completed: k.completed,
        has_channel_limit_error: n.limited,
    }
}
