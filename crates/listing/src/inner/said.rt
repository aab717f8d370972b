// What is said of how a listing ended: V or X on standard output, and one line on standard error.
ghost use Rattle.std.specs.Prelude.{◌+◌, ◌≤◌, [], ◌∷◌, ◌++◌, length, take};
ghost use Rattle.std.specs.Io.KnownBytes.{Appends};
ghost use Rattle.log_lines.specs.Decimal.{decimal};
ghost use Rattle.log_lines.specs.Lines.{line_room, spaced_fields};
ghost use Rattle.log_lines.specs.Puts.{Put};
ghost use Rattle.listing.specs.Calls.{bytes_out};
ghost use Rattle.listing.specs.Outcomes.{last_line, outcome_line};

use crate::inner::outcome::Outcome;
use crate::inner::output;
use crate::inner::output::Unwritten;
use log_lines::inner::lines::{cut_line, version_line};
use log_lines::inner::pieces::{byte, number};
use std::io::Write;

pub fn last_line(out: &mut [u8], at: usize, outcome: Option<Outcome>) -> usize
    requires { at + line_room ≤ length out.old }
    ensures { Put 23 out.old at (last_line outcome) out.new result }
{
    let Some(ended) = outcome else {
        return at;
    };
    match ended {
        Outcome::CutAt(offset) => cut_line(out, at, offset),
        Outcome::OtherVersion(version) => version_line(out, at, version),
        Outcome::Ended(_) => at,
        Outcome::ReadFailed { at: _, error: _ } => at,
        Outcome::WriteFailed { at: _, error: _ } => at,
    }
}

fn word(out: &mut [u8], text: &[u8]) -> usize
    requires { length text.now ≤ length out.old }
    ensures { Put (length text.now) out.old 0 text.now out.new result }
{
    for i in 0..text.len() {
        out[i] = text[i];
    }
    text.len()
}

fn one_number(out: &mut [u8], text: &[u8], n: u64) -> usize
    requires { (length text.now ≤ 12) × (line_room ≤ length out.old) }
    ensures { Put 34 out.old 0 (text.now ++ spaced_fields (decimal n ∷ [])) out.new result }
{
    let behind = word(out, text);
    let only = number(out, behind, n);
    byte(out, only, b'\n')
}

fn two_numbers(out: &mut [u8], text: &[u8], n: u64, m: u64) -> usize
    requires { (length text.now ≤ 12) × (line_room ≤ length out.old) }
    ensures { Put 55 out.old 0 (text.now ++ spaced_fields (decimal n ∷ decimal m ∷ [])) out.new result }
{
    let first = word(out, text);
    let second = number(out, first, n);
    let third = number(out, second, m);
    byte(out, third, b'\n')
}

// A word and its numbers, single spaces, a newline: the launcher takes it apart. A listing that did not end has none.
pub fn outcome_line(out: &mut [u8], outcome: Option<Outcome>) -> usize
    requires { line_room ≤ length out.old }
    ensures { Put 55 out.old 0 (outcome_line outcome) out.new result }
{
    match outcome {
        None => 0,
        Some(Outcome::Ended(size)) => one_number(out, b"ended", size),
        Some(Outcome::CutAt(offset)) => one_number(out, b"cut", offset),
        Some(Outcome::OtherVersion(version)) => one_number(out, b"version", version as u64),
        Some(Outcome::ReadFailed { at, error }) => {
            two_numbers(out, b"read-failed", at, error.unwrap_or(0))
        }
        Some(Outcome::WriteFailed { at, error }) => {
            two_numbers(out, b"write-failed", at, error.unwrap_or(0))
        }
    }
}

// How much of the line is out. What is not can't be told anywhere: then the launcher finds no line.
pub fn say<W: Write>(sink: &mut W, outcome: Option<Outcome>) -> Result<(), Unwritten>
    ensures within { bytes_out (length (outcome_line outcome)) result ≤ length (outcome_line outcome) }
    ensures out { Appends (W.contents sink.old) (W.contents sink.new)
        (take (bytes_out (length (outcome_line outcome)) result) (outcome_line outcome)) }
{
    let mut line = [0u8; 96];
    let end = outcome_line(&mut line, outcome);
    output::flush(sink, &line, end)
}
