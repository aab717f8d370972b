// The numbers of a walk, and the records that they say.
ghost use Rattle.std.specs.Prelude.{◌≡◌, length};
ghost use Rattle.field_walking.specs.Answers.{of_walk};
ghost use Rattle.field_records.specs.Records.{record_of, filled};
ghost use Rattle.field_records.specs.Walks.{parse, walked_into};
ghost use Rattle.field_records.specs.Fits.{RecordFits, Ready};

use crate::Stream;
use bitio_window::{PacketBit, Window, WindowBit};
use field::walks;
use field_walking::{FieldRecord, Record, Walk};

// No `TryFrom`: that a walk's numbers fit is proved, and not tested.
pub fn record_of(numbers: Record) -> FieldRecord
    requires { RecordFits numbers }
    ensures { result ≡ record_of numbers }
{
    let [handle, bit_count, in_window, in_packet] = numbers;
    FieldRecord {
        handle: handle as u32,
        bit_count: bit_count as u32,
        in_window: WindowBit(in_window),
        in_packet: PacketBit(in_packet),
    }
}

// One place for each of the first n records.
pub fn fill(records: &mut [FieldRecord], numbers: &[Record], n: usize)
    requires { Ready n (length records.old) numbers.now }
    ensures { records.new ≡ filled n numbers.now records.old }
{
    // not by `zip`: of a slice's elements nothing is known after `iter_mut`
    for i in 0..n {
        records[i] = record_of(numbers[i]);
    }
}

// Not a closure for each stream: the public call `parse` takes the stream.
fn walk(bytes: &[u8], w: &mut Window, stream: Stream, numbers: &mut [Record]) -> Walk
    ensures { of_walk result w.new numbers.new ≡ parse stream bytes.now numbers.old w.old }
{
    match stream {
        Stream::RepLayout => walks::parse_rep_layout(bytes, w, numbers),
        Stream::RepLayoutContentBlock => walks::parse_rep_layout_content_block(bytes, w, numbers),
        Stream::ClassNetCache(count) => walks::parse_class_net_cache(bytes, w, count, numbers),
    }
}

// The walk into the first `room` places.
pub fn walk_numbers(
    bytes: &[u8],
    w: &mut Window,
    stream: Stream,
    numbers: &mut [Record],
    room: usize,
) -> Walk
    ensures { (of_walk result w.new numbers.new ≡ walked_into room stream bytes.now numbers.old w.old)
        × Ready result.count room numbers.new }
{
    let n = room.min(numbers.len());
    walk(bytes, w, stream, &mut numbers[..n])
}
