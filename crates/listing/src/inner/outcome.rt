// How a listing ends, decided by value from what was read and what was written.
ghost use Rattle.std.specs.Prelude.{◌≡◌};
ghost use Rattle.listing.specs.Outcomes.{read_failed, write_failed, first_read, opened as openedBy, after_bytes, after_read, is_over};

use crate::inner::moved::Failure;
use crate::inner::output::Unwritten;
use packet_log::VersionError;

// A number is a byte of the log (`Ended`: its length), but for the version, an error's number where it has one, and of a write that
// failed how many bytes of the listing are out.
#[derive(Clone, Copy)]
pub enum Outcome {
    Ended(u64),
    CutAt(u64),
    OtherVersion(u8),
    ReadFailed { at: u64, error: Option<u64> },
    WriteFailed { at: u64, error: Option<u64> },
}

// `left` bytes from `start` on had been read.
fn read_failed(left: usize, start: u64, failure: Failure) -> Outcome
    ensures { result ≡ read_failed left start failure }
{
    Outcome::ReadFailed {
        at: start.wrapping_add(left as u64),
        error: failure.number,
    }
}

// Bytes that did not get out are a hole in the listing, whatever else there is to say.
pub fn write_failed(written: u64, hole: Unwritten) -> Outcome
    ensures { result ≡ write_failed written hole }
{
    Outcome::WriteFailed {
        at: written.wrapping_add(hole.bytes as u64),
        error: hole.error,
    }
}

// A log whose first read fails is not an empty one.
fn first_read(moved: Result<usize, Failure>) -> Outcome
    ensures { result ≡ first_read moved }
{
    match moved {
        Ok(_) => Outcome::CutAt(0),
        Err(failure) => read_failed(0, 0, failure),
    }
}

// None where it goes on.
pub fn opened(version: Result<(), VersionError>, moved: Result<usize, Failure>) -> Option<Outcome>
    ensures { result ≡ openedBy version moved }
{
    match version {
        Ok(()) => None,
        Err(VersionError::Other(number)) => Some(Outcome::OtherVersion(number)),
        Err(VersionError::Missing) => Some(first_read(moved)),
    }
}

// Where a read brought nothing the log has ended: in the record that starts at `start`, if bytes of one are left.
fn after_bytes(count: usize, left: usize, start: u64) -> Option<Outcome>
    ensures { result ≡ after_bytes count left start }
{
    if count > 0 {
        None
    } else if left > 0 {
        Some(Outcome::CutAt(start))
    } else {
        Some(Outcome::Ended(start))
    }
}

pub fn after_read(moved: Result<usize, Failure>, left: usize, start: u64) -> Option<Outcome>
    ensures { result ≡ after_read moved left start }
{
    match moved {
        Ok(count) => after_bytes(count, left, start),
        Err(failure) => Some(read_failed(left, start, failure)),
    }
}

// A listing that has ended takes no further turn. A write that failed stands by its name, so that an edit can turn it alone.
pub fn is_over(outcome: Option<Outcome>) -> bool
    ensures { result ≡ is_over outcome }
{
    match outcome {
        None => false,
        Some(Outcome::WriteFailed { at: _, error: _ }) => true,
        Some(_) => true,
    }
}
