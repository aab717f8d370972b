// The lines where any would find room: pieces in a row, each from where the last one ended.
ghost use Rattle.std.specs.Prelude.{◌≡◌, [], ◌∷◌, ◌+◌, ◌≤◌, length};
ghost use Rattle.log_lines.specs.Decimal.{decimal};
ghost use Rattle.log_lines.specs.Puts.{Put};
ghost use Rattle.log_lines.specs.Lines.{mark, zero_or_one, flags, state, line, bunch_line, packet_line, version_line, cut_line, line_room};
ghost use Rattle.log_lines.specs.Halves.{bunch_names, bunch_payload};

use crate::inner::pieces::{byte, number, signed_number};
use crate::{BunchLine, PacketLine};

fn letter(out: &mut [u8], at: usize, value: u8) -> usize
    requires { at + 2 ≤ length out.old }
    ensures { Put 2 out.old at (32 ∷ value ∷ []) out.new result }
{
    let text = byte(out, at, b' ');
    byte(out, text, value)
}

fn mark_of(on: bool, value: u8) -> u8
    ensures { result ≡ mark on value }
{
    if on { value } else { b'-' }
}

fn flag_field(out: &mut [u8], at: usize, line: BunchLine) -> usize
    requires { at + 5 ≤ length out.old }
    ensures { Put 5 out.old at (32 ∷ flags line) out.new result }
{
    let first = letter(out, at, mark_of(line.b_reliable, b'R'));
    let second = byte(out, first, mark_of(line.b_partial, b'P'));
    let third = byte(out, second, mark_of(line.b_partial_initial, b'I'));
    byte(out, third, mark_of(line.b_partial_final, b'F'))
}

fn state_of(line: BunchLine) -> u8
    ensures { result ≡ state line }
{
    if line.has_channel_limit_error {
        b'L'
    } else if line.has_partial_error {
        b'E'
    } else {
        mark_of(line.is_partial_completed, b'K')
    }
}

fn zero_or_one(on: bool) -> u8
    ensures { result ≡ zero_or_one on }
{
    b'0' + u8::from(on)
}

// The line in two halves: "B, packet id, channel, sequence", and the fields after them.
fn bunch_names(out: &mut [u8], at: usize, line: BunchLine) -> usize
    requires { at + 46 ≤ length out.old }
    ensures { Put 46 out.old at (bunch_names line) out.new result }
{
    let kind = byte(out, at, b'B');
    let id = signed_number(out, kind, line.packet_id);
    let channel = number(out, id, line.ch_index as u64);
    signed_number(out, channel, line.ch_sequence)
}

fn bunch_payload(out: &mut [u8], at: usize, line: BunchLine) -> usize
    requires { at + 50 ≤ length out.old }
    ensures { Put 50 out.old at (bunch_payload line) out.new result }
{
    let flags = flag_field(out, at, line);
    let count = number(out, flags, line.payload_bit_count as u64);
    let offset = number(out, count, line.payload_bit_offset);
    let state = letter(out, offset, state_of(line));
    byte(out, state, b'\n')
}

pub fn bunch_line(out: &mut [u8], at: usize, line: BunchLine) -> usize
    requires { at + line_room ≤ length out.old }
    ensures { Put 96 out.old at (bunch_line line) out.new result }
{
    let payload = bunch_names(out, at, line);
    bunch_payload(out, payload, line)
}

pub fn packet_line(out: &mut [u8], at: usize, line: PacketLine) -> usize
    requires { at + line_room ≤ length out.old }
    ensures { Put 79 out.old at (packet_line line) out.new result }
{
    let kind = byte(out, at, b'P');
    let id = signed_number(out, kind, line.packet_id);
    let bunches = number(out, id, line.bunches);
    let malformed = letter(out, bunches, zero_or_one(line.is_malformed));
    let errors = number(out, malformed, line.partial_errors);
    let limits = number(out, errors, line.channel_limits);
    byte(out, limits, b'\n')
}

// A letter and one number.
fn short_line(out: &mut [u8], at: usize, kind: u8, n: u64) -> usize
    requires { at + line_room ≤ length out.old }
    ensures { Put 23 out.old at (line kind (decimal n ∷ [])) out.new result }
{
    let first = byte(out, at, kind);
    let second = number(out, first, n);
    byte(out, second, b'\n')
}

pub fn version_line(out: &mut [u8], at: usize, version: u8) -> usize
    requires { at + line_room ≤ length out.old }
    ensures { Put 23 out.old at (version_line version) out.new result }
{
    short_line(out, at, b'V', version as u64)
}

pub fn cut_line(out: &mut [u8], at: usize, offset: u64) -> usize
    requires { at + line_room ≤ length out.old }
    ensures { Put 23 out.old at (cut_line offset) out.new result }
{
    short_line(out, at, b'X', offset)
}
