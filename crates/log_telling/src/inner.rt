// One packet's part of the listing: a line for each bunch, and the packet's own.
ghost use Rattle.std.specs.Prelude.{◌≡◌, ◌+◌, ◌≤◌, leb, length};
ghost use Rattle.types.specs.Types.{longest_packet};
ghost use Rattle.packet_reading.specs.Memory.{columns_memory, SameColumns, reader_tables};
ghost use Rattle.packet_reading.specs.State.{ReaderSound};
ghost use Rattle.log_lines.specs.Lines.{line_room};
ghost use Rattle.log_lines.specs.Puts.{Put};
ghost use Rattle.log_telling.specs.Listed.{line_of, raised, closing, listed_packet};
ghost use Rattle.log_telling.specs.Turns.{Few, packet_room, PacketRoom, TellsPacket};

use bitio_bits::inner::signed;
use bitio_window::PacketBit;
use log_lines::{BunchLine, PacketLine};
use packet_reading::inner::read;
use packet_reading::{Bunch, BunchRead, RawPacketReader, ReaderColumns};
use types::RawBunchHeader;

// Whether what any packet adds finds room in so many bytes.
pub fn is_room(bytes: usize) -> bool
    ensures { result ≡ leb packet_room bytes }
{
    1735680 <= bytes
}

// What the reads of a packet have raised.
#[derive(Clone, Copy, Debug, PartialEq, Eq)]
pub struct Sums {
    pub bunches: u64,
    pub malformed_packets: u64,
    pub partial_errors: u64,
    pub channel_limits: u64,
}

impl Sums {
    fn raise(&mut self, read: BunchRead)
        requires { Few 600000 self.old }
        ensures { self.new ≡ raised self.old read.bunches read.malformed_packets read.partial_errors read.channel_limits }
    {
        self.bunches += u64::from(read.bunches);
        self.malformed_packets += u64::from(read.malformed_packets);
        self.partial_errors += u64::from(read.partial_errors);
        self.channel_limits += u64::from(read.channel_limits);
    }
}

// No `From`: its type and the header's are other crates'.
fn line_of(h: RawBunchHeader) -> BunchLine
    ensures { result ≡ line_of h }
{
    BunchLine {
        packet_id: h.packet_id,
        ch_index: h.ch_index,
        ch_sequence: h.ch_sequence,
        b_reliable: h.b_reliable,
        b_partial: h.b_partial,
        b_partial_initial: h.b_partial_initial,
        b_partial_final: h.b_partial_final,
        payload_bit_count: h.payload_bit_count,
        payload_bit_offset: h.payload_bit_offset,
        is_partial_completed: h.is_partial_completed,
        has_partial_error: h.has_partial_error,
        has_channel_limit_error: h.has_channel_limit_error,
    }
}

fn close(out: &mut [u8], at: usize, id: i32, s: Sums) -> usize
    requires { at + line_room ≤ length out.old }
    ensures { Put 79 out.old at (closing id s) out.new result }
{
    log_lines::inner::lines::packet_line(
        out,
        at,
        PacketLine {
            packet_id: id,
            bunches: s.bunches,
            is_malformed: s.malformed_packets > 0,
            partial_errors: s.partial_errors,
            channel_limits: s.channel_limits,
        },
    )
}

// For tables that have been tested, and a buffer in which any packet finds room. It answers where the packet's text ends.
pub fn tell(
    packet: &[u8],
    id: i32,
    reader: &mut RawPacketReader,
    out: &mut [u8],
    used: usize,
    columns: &mut ReaderColumns<'_>,
) -> usize
    requires { ReaderSound reader.old (columns_memory columns.old)
        × (length packet.now ≤ longest_packet)
        × PacketRoom out.old used }
    ensures same { SameColumns columns.old columns.new }
    ensures told { let tables = reader_tables reader.old (columns_memory columns.old) in
        let listed = listed_packet reader.old.max_channels packet.now id tables in
        TellsPacket listed out.old used out.new (columns_memory columns.new) reader.new result
        × (reader.new.max_channels ≡ reader.old.max_channels) }
{
    let word = signed::to_word(id);
    let mut at = PacketBit(0);
    let mut end = used;
    let mut sums = Sums {
        bunches: 0,
        malformed_packets: 0,
        partial_errors: 0,
        channel_limits: 0,
    };
    loop {
        let read = read::read(packet, word, &mut at, reader, columns);
        sums.raise(read);
        let answer = read.answer;
        match answer {
            Bunch::Read { header, payload: _ } => {
                end = log_lines::inner::lines::bunch_line(out, end, line_of(header));
            }
            Bunch::End | Bunch::Malformed => return close(out, end, id, sums),
        }
    }
}
