// The public calls: opening over lent tables, and the bunch at a cursor.
ghost use Rattle.std.specs.Prelude.{◌≡◌, ◌≤◌, ◌<◌, true, false, leb, OnOk, IfErr};
ghost use Rattle.types.specs.Types.{most_channels};
ghost use Rattle.bitio_window.specs.Refusals.{beyond, unsound};
ghost use Rattle.packet_reading.specs.Memory.{reader_memory, columns_memory, SameColumns, tables_fitting, reader_sound};
ghost use Rattle.packet_reading.specs.Answers.{packet_paper};
ghost use Rattle.packet.specs.Answers.{of_answer, of_opened_reader, opened_reader, read_bunch};

use bitio_bits::inner::signed;
use bitio_window::PacketBit;
use packet_reading::inner::{bunch, read};
use packet_reading::{BunchRead, PacketError, RawPacketReader, ReaderColumns};
use tables::inner;
use types::{MAX_ACTIVE_CHANNELS, MAX_PACKET_BYTES};

// A limit on the reader itself, whatever room is lent.
fn in_limit(limit: usize) -> bool
    ensures { result ≡ leb limit most_channels }
{
    limit <= MAX_ACTIVE_CHANNELS
}

fn fitting(limit: usize, a: usize, b: usize, c: usize, d: usize, e: usize) -> bool
    ensures { result ≡ tables_fitting limit a b c d e }
{
    in_limit(limit) & (limit <= a) & (limit <= b) & (limit <= c) & (limit <= d) & (limit <= e)
}

// The Rust's `with_max_channels`: 9 where the limit or the lent room is unfit. Five columns, and no `ReaderColumns`: the C interface lends
// them to be read (`gritwheel_with_max_channels`).
pub fn with_max_channels(
    max_channels: usize,
    sequence_channels: &[u32],
    sequence_numbers: &[u32],
    partial_channels: &[u32],
    partial_sequences: &[u32],
    partial_reliables: &[u32],
) -> Result<RawPacketReader, PacketError>
    ensures { let before = reader_memory sequence_channels.now sequence_numbers.now
        partial_channels.now partial_sequences.now partial_reliables.now in
        of_opened_reader result ≡ opened_reader max_channels before }
{
    if fitting(
        max_channels,
        sequence_channels.len(),
        sequence_numbers.len(),
        partial_channels.len(),
        partial_sequences.len(),
        partial_reliables.len(),
    ) {
        return Ok(RawPacketReader {
            max_channels,
            live_sequences: 0,
            live_partials: 0,
        });
    }
    Err(PacketError::Unfit)
}

// Nothing of a state that is sound, or else 10. One pass over the channels of each table.
fn sound(reader: RawPacketReader, columns: &ReaderColumns<'_>) -> Result<(), PacketError>
    ensures there { OnOk result (reader_sound reader (columns_memory columns.now) ≡ true) }
    ensures broken { IfErr result (λ e. (reader_sound reader (columns_memory columns.now) ≡ false) × (packet_paper e ≡ unsound)) }
{
    let limit = reader.max_channels;
    let fit = fitting(
        limit,
        columns.sequence_channels.len(),
        columns.sequence_numbers.len(),
        columns.partial_channels.len(),
        columns.partial_sequences.len(),
        columns.partial_reliables.len(),
    );
    if fit & (reader.live_sequences <= limit) & (reader.live_partials <= limit) {
        let sequences = inner::ascending(columns.sequence_channels, reader.live_sequences);
        let partials = inner::ascending(columns.partial_channels, reader.live_partials);
        if sequences & partials {
            return Ok(());
        }
    }
    Err(PacketError::Unsound)
}

// Nothing of a cursor in the data or at its end, where `read` answers, or else 5.
fn in_data(at: PacketBit, bits: u64) -> Result<(), PacketError>
    ensures there { OnOk result (at.0 ≤ bits) }
    ensures past { IfErr result (λ e. (bits < at.0) × (packet_paper e ≡ beyond at.0 bits)) }
{
    if bits < at.0 {
        return Err(PacketError::CursorPastEnd {
            position: at.0,
            available: bits,
        });
    }
    Ok(())
}

// The bunch at a cursor, or why not: 10, 8, then 5 for a cursor past the data's end. A refusal leaves all as it was.
pub fn read_bunch(
    packet: &[u8],
    packet_id: i32,
    at: &mut PacketBit,
    reader: &mut RawPacketReader,
    columns: &mut ReaderColumns<'_>,
) -> Result<BunchRead, PacketError>
    ensures same { SameColumns columns.old columns.new }
    ensures reply { let before = columns_memory columns.old in
        let after = columns_memory columns.new in
        (of_answer result at.new reader.new after ≡ read_bunch packet.now packet_id at.old.0 reader.old before)
        × (reader.new.max_channels ≡ reader.old.max_channels) }
{
    sound(*reader, columns)?;
    let size = packet.len();
    if size > MAX_PACKET_BYTES {
        return Err(PacketError::PacketTooLong {
            length: size as u64,
        });
    }
    in_data(*at, bunch::data_bits(packet))?;
    Ok(read::read(packet, signed::to_word(packet_id), at, reader, columns))
}
