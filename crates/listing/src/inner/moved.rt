// What a call that moves bytes came to, decided by its answer.
ghost use Rattle.std.specs.Prelude.{◌≡◌};
ghost use Rattle.listing.specs.Calls.{error_number, os_number, moved_by, is_interrupted, after_write};

use std::io;

// Why a call moved no byte: the error's number, where it has one.
#[derive(Clone, Copy, Debug, PartialEq, Eq)]
pub struct Failure {
    pub number: Option<u64>,
}

// EINTR.
const INTERRUPTED: u64 = 4;

impl Failure {
    // A signal came first.
    pub fn is_interrupted(self) -> bool
        ensures { result ≡ is_interrupted self }
    {
        match self.number {
            Some(number) => number == INTERRUPTED,
            None => false,
        }
    }
}

fn error_number(error: i32) -> Option<u64>
    ensures { result ≡ error_number error }
{
    u64::try_from(error).ok()
}

fn os_number(error: &io::Error) -> Option<u64>
    ensures { result ≡ os_number error.now }
{
    let number = error.raw_os_error()?;
    error_number(number)
}

pub fn moved_by(got: io::Result<usize>) -> Result<usize, Failure>
    ensures { result ≡ moved_by got }
{
    match got {
        Ok(count) => Ok(count),
        Err(error) => Err(Failure {
            number: os_number(&error),
        }),
    }
}

// How many bytes more are out, or what ends the writing.
pub fn after_write(moved: Result<usize, Failure>) -> Result<usize, Option<u64>>
    ensures { result ≡ after_write moved }
{
    match moved {
        Ok(0) => Err(None),
        Ok(more) => Ok(more),
        Err(failure) if failure.is_interrupted() => Ok(0),
        Err(failure) => Err(failure.number),
    }
}
