// The part of the log that stands in the buffer.
ghost use Rattle.std.specs.Prelude.{◌≡◌, ◌+◌, ◌-◌, ◌≤◌, length, take, drop, false, IfErr};
ghost use Rattle.std.specs.Io.KnownBytes.{Consumes};
ghost use Rattle.listing.specs.Calls.{bytes_moved, is_interrupted};
ghost use Rattle.listing.specs.Input.{InBuffer, RefilledFrom};

use crate::inner::moved;
use crate::inner::moved::Failure;
use std::io::Read;

// The bytes of the log before the buffer, and how many stand in it.
#[derive(Clone, Copy)]
pub struct Part {
    pub before: u64,
    pub held: usize,
}

// The part after a read, and what the read came to.
#[derive(Clone, Copy)]
pub struct Refilled {
    pub part: Part,
    pub moved: Result<usize, Failure>,
}

fn read_once<R: Read>(source: &mut R, buffer: &mut [u8], held: usize) -> Result<usize, Failure>
    requires { held ≤ length buffer.old }
    ensures within { held + bytes_moved result ≤ length buffer.new }
    ensures kept { take held buffer.new ≡ take held buffer.old }
    ensures brought { Consumes (R.remaining source.old) (R.remaining source.new) (take (bytes_moved result) (drop held buffer.new)) }
{
    moved::moved_by(source.read(&mut buffer[held..]))
}

// A read that a signal interrupted is made again. A proved loop has to end: it counts its turns, which no run uses up.
fn read_more<R: Read>(source: &mut R, buffer: &mut [u8], held: usize) -> Result<usize, Failure>
    requires { held ≤ length buffer.old }
    ensures within { held + bytes_moved result ≤ length buffer.new }
    ensures kept { take held buffer.new ≡ take held buffer.old }
    ensures brought { Consumes (R.remaining source.old) (R.remaining source.new) (take (bytes_moved result) (drop held buffer.new)) }
    ensures again { IfErr result (λ f. is_interrupted f ≡ false) }
{
    'again: for _ in 0..u64::MAX {
        let moved = read_once(source, buffer, held);
        match moved {
            Ok(_) => return moved,
            Err(failure) => {
                if !failure.is_interrupted() {
                    return moved;
                }
            }
        }
    }
    Err(Failure { number: None })
}

pub fn refill<R: Read>(source: &mut R, buffer: &mut [u8], part: Part, at: usize) -> Refilled
    requires { InBuffer buffer.old part × (at ≤ part.held) }
    ensures part { InBuffer buffer.new result.part × RefilledFrom part at result }
    ensures left { take (part.held - at) buffer.new ≡ take (part.held - at) (drop at buffer.old) }
    ensures brought { Consumes (R.remaining source.old) (R.remaining source.new)
        (take (bytes_moved result.moved) (drop (part.held - at) buffer.new)) }
{
    let left = part.held - at;
    buffer.copy_within(at..part.held, 0);
    let moved = read_more(source, buffer, left);
    Refilled {
        part: Part {
            before: part.before.wrapping_add(at as u64),
            held: left + moved.unwrap_or(0),
        },
        moved,
    }
}
