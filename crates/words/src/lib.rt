// A bunch's header as words, and back: so that it can stand in lent memory.
#![tactic(auto)]

ghost use Rattle.std.specs.Prelude.{◌≡◌};
ghost use Rattle.words.specs.Words.{kind_word, header_words, kind_of, header_from};

use bitio_bits::inner::signed;
use types::{ChannelCloseReason, PartialSequenceKind, RawBunchHeader};

pub mod inner;

// An array, since C reads and lends it: so the ways there and back are functions, and no `From`.
pub type HeaderWords = [u64; 20];

pub fn kind_word(kind: Option<PartialSequenceKind>) -> u64
    ensures { result ≡ kind_word kind }
{
    match kind {
        None => 0,
        Some(PartialSequenceKind::MissingInitial) => 1,
        Some(PartialSequenceKind::OverlappingInitial) => 2,
        Some(PartialSequenceKind::MismatchedContinuation) => 3,
        Some(PartialSequenceKind::NonByteAlignedFragment) => 4,
    }
}

pub fn of_header(h: RawBunchHeader) -> HeaderWords
    ensures { result ≡ header_words h }
{
    let close_reason = h.close_reason;
    let partial_error_kind = h.partial_error_kind;
    let bits = h.payload_bit_count as u64;
    let id = signed::to_word(h.packet_id) as u64;
    let sequence = signed::to_word(h.ch_sequence) as u64;
    let closed = close_reason.to_raw() as u64;
    let wrong = kind_word(partial_error_kind);
    [
        id,
        h.ch_index as u64,
        h.b_open as u64,
        h.b_close as u64,
        h.b_dormant as u64,
        h.b_is_replication_paused as u64,
        h.b_reliable as u64,
        h.b_partial as u64,
        h.b_partial_initial as u64,
        h.b_partial_final as u64,
        h.b_has_package_map_exports as u64,
        h.b_has_must_be_mapped_guids as u64,
        sequence,
        closed,
        bits,
        h.payload_bit_offset,
        h.has_partial_error as u64,
        wrong,
        h.is_partial_completed as u64,
        h.has_channel_limit_error as u64,
    ]
}

#[tactic(auto, unfolding(crate::specs::Words::kind_of))]
fn kind_of(w: u64) -> Option<PartialSequenceKind>
    ensures { result ≡ kind_of w }
{
    match w {
        1 => Some(PartialSequenceKind::MissingInitial),
        2 => Some(PartialSequenceKind::OverlappingInitial),
        3 => Some(PartialSequenceKind::MismatchedContinuation),
        4 => Some(PartialSequenceKind::NonByteAlignedFragment),
        _ => None,
    }
}

pub fn header_of(w: HeaderWords) -> RawBunchHeader
    ensures { result ≡ header_from w }
{
    let packet_id = signed::of_word((w[0] % 4294967296) as u32);
    let ch_sequence = signed::of_word((w[12] % 4294967296) as u32);
    let close_reason = ChannelCloseReason::from_raw(w[13]);
    let partial_error_kind = kind_of(w[17]);
    RawBunchHeader {
        packet_id,
        ch_index: (w[1] % 4294967296) as u32,
        b_open: w[2] != 0,
        b_close: w[3] != 0,
        b_dormant: w[4] != 0,
        b_is_replication_paused: w[5] != 0,
        b_reliable: w[6] != 0,
        b_partial: w[7] != 0,
        b_partial_initial: w[8] != 0,
        b_partial_final: w[9] != 0,
        b_has_package_map_exports: w[10] != 0,
        b_has_must_be_mapped_guids: w[11] != 0,
        ch_sequence,
        close_reason,
        payload_bit_count: (w[14] % 4294967296) as u32,
        payload_bit_offset: w[15],
        has_partial_error: w[16] != 0,
        partial_error_kind,
        is_partial_completed: w[18] != 0,
        has_channel_limit_error: w[19] != 0,
    }
}
