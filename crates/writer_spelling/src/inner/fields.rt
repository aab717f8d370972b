// What is written of a header, and whether it can be.
ghost use Rattle.std.specs.Prelude.{◌≡◌, ◌<◌};
ghost use Rattle.types.specs.Types.{close_reason_maximum};
ghost use Rattle.writer_spelling.specs.Header.{fields_of, writable};

use packet_header::BunchFields;
use types::{ChannelCloseReason, RawBunchHeader};

// 16 where it is not.
pub fn writable(header: RawBunchHeader) -> bool
    ensures { result ≡ writable header }
{
    let dormant = header.close_reason == ChannelCloseReason::Dormancy;
    let apart = (header.b_partial_initial | header.b_partial_final) & !header.b_partial;
    let without_close = dormant & !header.b_close;
    !apart & !without_close & (header.b_dormant == (header.b_close & dormant))
}

// Of a header and a count, so no `From`.
pub fn fields_of(header: RawBunchHeader, count: u32) -> BunchFields
    ensures { (result ≡ fields_of header count) × (result.close_reason < close_reason_maximum) × (result.payload_bit_count ≡ count) }
{
    let reason = header.close_reason;
    BunchFields {
        b_open: header.b_open,
        b_close: header.b_close,
        close_reason: reason.to_raw(),
        b_is_replication_paused: header.b_is_replication_paused,
        b_reliable: header.b_reliable,
        ch_index: header.ch_index,
        b_has_package_map_exports: header.b_has_package_map_exports,
        b_has_must_be_mapped_guids: header.b_has_must_be_mapped_guids,
        b_partial: header.b_partial,
        b_partial_initial: header.b_partial_initial,
        b_partial_final: header.b_partial_final,
        payload_bit_count: count,
    }
}
