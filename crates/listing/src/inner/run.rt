// The listing: the version byte, then record after record.
ghost use Rattle.std.specs.Prelude.{◌≡◌, ◌≤◌};
ghost use Rattle.types.specs.Types.{most_channels};
ghost use Rattle.packet_reading.specs.Memory.{columns_memory, SameColumns};
ghost use Rattle.packet_reading.specs.State.{TablesSound};
ghost use Rattle.packet_log.specs.Log.{entry_at};
ghost use Rattle.listing.specs.Input.{InBuffer, whole_at, Short};
ghost use Rattle.listing.specs.Outcomes.{Concluded, last_line};
ghost use Rattle.log_lines.specs.Texts.{written as textWritten};
ghost use Rattle.log_telling.specs.Turns.{PacketRoom};

use crate::inner::input::Part;
use crate::inner::outcome::Outcome;
use crate::inner::{input, outcome, output, said};
use packet_log::Record;
use packet_reading::{RawPacketReader, ReaderColumns};
use std::io::{Read, Write};
use types::MAX_ACTIVE_CHANNELS;

// The tables' counts, how much of the lines waits and how much is out, and how the listing ended.
#[derive(Clone, Copy)]
pub struct Listed {
    pub reader: RawPacketReader,
    pub used: usize,
    pub written: u64,
    pub outcome: Option<Outcome>,
}

// The same once nothing waits.
#[derive(Clone, Copy)]
pub struct Ended {
    pub reader: RawPacketReader,
    pub outcome: Option<Outcome>,
}

// A whole record. Two bytes hold its length, so a packet is never above 65,535 bytes.
fn record_at(bytes: &[u8], at: u64) -> Option<Record>
    ensures { (result ≡ whole_at (entry_at bytes.now at)) × Short result }
{
    packet_log::reading::record_at(bytes, at).unwrap_or(None)
}

// A proved loop has to end, and nothing says that an input does: it counts its turns down, from a number that no run uses up.
fn records<R: Read, W: Write>(
    source: &mut R,
    sink: &mut W,
    buffer: &mut [u8],
    out: &mut [u8],
    first: Part,
    columns: &mut ReaderColumns<'_>,
) -> Listed
    requires { InBuffer buffer.old first
        × (1 ≤ first.held)
        × PacketRoom out.old 0
        × TablesSound most_channels 0 0 (columns_memory columns.old) }
    ensures same { SameColumns columns.old columns.new }
    ensures state { TablesSound most_channels result.reader.live_sequences result.reader.live_partials (columns_memory columns.new)
        × PacketRoom out.new result.used }
{
    let mut part = first;
    let mut at: usize = 1;
    let mut used: usize = 0;
    let mut written: u64 = 0;
    let mut outcome = None;
    let mut live_sequences: usize = 0;
    let mut live_partials: usize = 0;
    'records: for _ in 0..u64::MAX {
        let held = part.held;
        let found = record_at(&buffer[..held], at as u64);
        if let Some(record) = found {
            let from = record.start as usize;
            let to = record.next as usize;
            let mut reader = RawPacketReader {
                max_channels: MAX_ACTIVE_CHANNELS,
                live_sequences,
                live_partials,
            };
            let told = log_telling::inner::tell(
                &buffer[from..to],
                record.id,
                &mut reader,
                out,
                used,
                columns,
            );
            live_sequences = reader.live_sequences;
            live_partials = reader.live_partials;
            at = to;
            match output::with_room(sink, out, told, written) {
                Ok(room) => {
                    used = room.used;
                    written = room.written;
                }
                Err(failed) => {
                    used = 0;
                    outcome = Some(failed);
                }
            }
        } else {
            let left = held - at;
            let refilled = input::refill(source, buffer, part, at);
            part = refilled.part;
            at = 0;
            let moved = refilled.moved;
            outcome = outcome::after_read(moved, left, part.before);
        }
        if outcome::is_over(outcome) {
            break;
        }
    }
    Listed {
        reader: RawPacketReader {
            max_channels: MAX_ACTIVE_CHANNELS,
            live_sequences,
            live_partials,
        },
        used,
        written,
        outcome,
    }
}

// The last line, where there is one, and all that waits. After a write that failed nothing more is written.
fn conclude<W: Write>(
    sink: &mut W,
    out: &mut [u8],
    used: usize,
    written: u64,
    outcome: Option<Outcome>,
) -> Option<Outcome>
    requires { PacketRoom out.old used }
    ensures { (out.new ≡ textWritten out.old used (last_line outcome)) × Concluded outcome result }
{
    if let Some(ended) = outcome
        && let Outcome::WriteFailed { at: _, error: _ } = ended
    {
        return outcome;
    }
    let end = said::last_line(out, used, outcome);
    match output::flush(sink, out, end) {
        Ok(()) => outcome,
        Err(hole) => Some(outcome::write_failed(written, hole)),
    }
}

// The tables are sound to the end.
pub fn list<R: Read, W: Write>(
    source: &mut R,
    sink: &mut W,
    buffer: &mut [u8],
    out: &mut [u8],
    columns: &mut ReaderColumns<'_>,
) -> Ended
    requires { PacketRoom out.old 0
        × TablesSound most_channels 0 0 (columns_memory columns.old) }
    ensures same { SameColumns columns.old columns.new }
    ensures state { TablesSound most_channels result.reader.live_sequences result.reader.live_partials (columns_memory columns.new) }
{
    let refilled = input::refill(source, buffer, Part { before: 0, held: 0 }, 0);
    let part = refilled.part;
    let held = part.held;
    let version = packet_log::reading::version(&buffer[..held]);
    if let Ok(()) = version {
        let listed = records(source, sink, buffer, out, part, columns);
        let reader = listed.reader;
        let reached = listed.outcome;
        return Ended {
            reader,
            outcome: conclude(sink, out, listed.used, listed.written, reached),
        };
    }
    let moved = refilled.moved;
    let outcome = outcome::opened(version, moved);
    Ended {
        reader: RawPacketReader {
            max_channels: MAX_ACTIVE_CHANNELS,
            live_sequences: 0,
            live_partials: 0,
        },
        outcome: conclude(sink, out, 0, 0, outcome),
    }
}
