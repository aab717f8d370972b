// The record walks: each runs on lent numbers, and then writes a record for each place of numbers that it filled.
// A record has a place where both lists have one: 14 comes where the shorter list is full.
ghost use Rattle.std.specs.Prelude.{◌≡◌};
ghost use Rattle.field_records.specs.Walks.{listed_records, of_lists};

use crate::{Stream, inner};
use bitio_window::Window;
use field_walking::{FieldRecord, Record, Walk};

// The walk that the stream names.
pub fn parse(
    bytes: &[u8],
    w: &mut Window,
    stream: Stream,
    records: &mut [FieldRecord],
    numbers: &mut [Record],
) -> Walk
    ensures { of_lists result w.new records.new numbers.new
        ≡ listed_records stream bytes.now records.old numbers.old w.old }
{
    let walk = inner::walk_numbers(bytes, w, stream, numbers, records.len());
    inner::fill(records, numbers, walk.count as usize);
    walk
}

pub fn parse_rep_layout(
    bytes: &[u8],
    w: &mut Window,
    records: &mut [FieldRecord],
    numbers: &mut [Record],
) -> Walk
    ensures { of_lists result w.new records.new numbers.new
        ≡ listed_records (Stream.RepLayout) bytes.now records.old numbers.old w.old }
{
    parse(bytes, w, Stream::RepLayout, records, numbers)
}

pub fn parse_rep_layout_content_block(
    bytes: &[u8],
    w: &mut Window,
    records: &mut [FieldRecord],
    numbers: &mut [Record],
) -> Walk
    ensures { of_lists result w.new records.new numbers.new
        ≡ listed_records (Stream.RepLayoutContentBlock) bytes.now records.old numbers.old w.old }
{
    parse(bytes, w, Stream::RepLayoutContentBlock, records, numbers)
}

pub fn parse_class_net_cache(
    bytes: &[u8],
    w: &mut Window,
    function_count: u32,
    records: &mut [FieldRecord],
    numbers: &mut [Record],
) -> Walk
    ensures { of_lists result w.new records.new numbers.new
        ≡ listed_records (Stream.ClassNetCache function_count) bytes.now records.old numbers.old w.old }
{
    parse(
        bytes,
        w,
        Stream::ClassNetCache(function_count),
        records,
        numbers,
    )
}
