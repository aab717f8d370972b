// A packet reader's answers as words.
ghost use Rattle.std.specs.Prelude.{◌≡◌, [], ◌∷◌, ◌++◌, get_or};
ghost use Rattle.packet_reading.specs.Memory.{ReaderMemory};
ghost use Rattle.packet_reading.specs.Answers.{packet_paper};
ghost use Rattle.packet.specs.Answers.{of_answer, of_opened_reader};
ghost use Rattle.exports_words.specs.Words.{window_words};
ghost use Rattle.words.specs.Words.{header_words};
ghost use Rattle.exports_packet.specs.Packets.{no_bunch, bunch_words, reader_words};
ghost use Rattle.exports_packet.specs.Parts.{read_words};

use bitio_window::{PacketBit, Window};
use packet_reading::{Bunch, BunchRead, PacketError, RawPacketReader};
use types::RawBunchHeader;
use words::inner::put;
use words::of_header;

pub type ReaderWords = [u64; 4];

pub type BunchWords = [u64; 34];

#[tactic(auto, unfolding(crate::specs::Packets::reader_words))]
pub fn of_opened(r: Result<RawPacketReader, PacketError>) -> ReaderWords
    ensures { result ≡ reader_words (of_opened_reader r) }
{
    match r {
        Ok(v) => [
            0,
            v.max_channels as u64,
            v.live_sequences as u64,
            v.live_partials as u64,
        ],
        Err(e) => {
            let said = refusal(e);
            [said[0], 0, 0, 0]
        }
    }
}

// Its number, and what it returns.
fn refusal(e: PacketError) -> [u64; 3]
    ensures { let p = packet_paper e in
        result ≡ p.number ∷ get_or p.returns 0 0 ∷ get_or p.returns 1 0 ∷ [] }
{
    match e {
        PacketError::CursorPastEnd {
            position,
            available,
        } => [5, position, available],
        PacketError::PacketTooLong { length } => [8, length, 0],
        PacketError::Unfit => [9, 0, 0],
        PacketError::Unsound => [10, 0, 0],
    }
}

// Where a call leaves the cursor and the reader: all other words are 0.
fn standing(at: PacketBit, reader: RawPacketReader) -> BunchWords
    ensures { result ≡ 0 ∷ 0 ∷ 0 ∷ 0 ∷ read_words at 0 0 0 0 reader no_bunch }
{
    let mut x: BunchWords = [0; 34];
    x[4] = at.0;
    x[9] = reader.live_sequences as u64;
    x[10] = reader.live_partials as u64;
    x
}

fn refused(e: PacketError, at: PacketBit, reader: RawPacketReader) -> BunchWords
    ensures { let p = packet_paper e in
        result ≡ p.number ∷ get_or p.returns 0 0 ∷ get_or p.returns 1 0 ∷ 0 ∷ read_words at 0 0 0 0 reader no_bunch }
{
    let mut x = standing(at, reader);
    let said = refusal(e);
    x[0] = said[0];
    x[1] = said[1];
    x[2] = said[2];
    x
}

// No bunch: the words of one are 0.
fn without_bunch(b: BunchRead, case: u64, at: PacketBit, reader: RawPacketReader) -> BunchWords
    ensures { result ≡ 0 ∷ 0 ∷ 0 ∷ case
        ∷ read_words at b.bunches b.malformed_packets b.partial_errors b.channel_limits reader no_bunch }
{
    let mut x = standing(at, reader);
    x[3] = case;
    x[5] = u64::from(b.bunches);
    x[6] = u64::from(b.malformed_packets);
    x[7] = u64::from(b.partial_errors);
    x[8] = u64::from(b.channel_limits);
    x
}

fn with_bunch(
    b: BunchRead,
    header: RawBunchHeader,
    w: Window,
    at: PacketBit,
    reader: RawPacketReader,
) -> BunchWords
    ensures { result ≡ 0 ∷ 0 ∷ 0 ∷ 0
        ∷ read_words at b.bunches b.malformed_packets b.partial_errors b.channel_limits reader
        (header_words header ++ window_words w) }
{
    let mut x = without_bunch(b, 0, at, reader);
    let h = of_header(header);
    put(&mut x, 11, &h);
    x[31] = w.start.0;
    x[32] = w.position.0;
    x[33] = w.length;
    x
}

#[tactic(auto, unfolding(crate::specs::Packets::bunch_words))]
pub fn of_read(
    read: Result<BunchRead, PacketError>,
    at: PacketBit,
    reader: RawPacketReader,
) -> BunchWords
    ensures { (m : ReaderMemory) → result ≡ bunch_words (of_answer read at reader m) }
{
    match read {
        Ok(b) => {
            let answer = b.answer;
            match answer {
                Bunch::Read { header, payload } => with_bunch(b, header, payload, at, reader),
                Bunch::End => without_bunch(b, 1, at, reader),
                Bunch::Malformed => without_bunch(b, 2, at, reader),
            }
        }
        Err(e) => refused(e, at, reader),
    }
}
