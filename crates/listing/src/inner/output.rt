// Lines gathered in a buffer, and written out where the next packet's might find no room.
ghost use Rattle.std.specs.Prelude.{◌<◌, ◌≡◌, ◌+◌, ◌-◌, ◌≤◌, length, take, drop, false, IfOk, IfErr};
ghost use Rattle.std.specs.Io.KnownBytes.{Appends};
ghost use Rattle.log_telling.specs.Turns.{packet_room, PacketRoom};
ghost use Rattle.listing.specs.Calls.{bytes_moved, bytes_out, is_eintr};
ghost use Rattle.listing.specs.Outcomes.{Concluded};

use crate::inner::moved::Failure;
use crate::inner::outcome::Outcome;
use crate::inner::{moved, outcome};
use std::io::Write;

// Not all bytes are out: how many are, and the error's number where it has one.
#[derive(Clone, Copy)]
pub struct Unwritten {
    pub bytes: usize,
    pub error: Option<u64>,
}

// How much of the buffer waits, and how many bytes of the listing are out.
#[derive(Clone, Copy)]
pub struct Room {
    pub used: usize,
    pub written: u64,
}

fn write_once<W: Write>(sink: &mut W, out: &[u8], from: usize, to: usize) -> Result<usize, Failure>
    requires { (from ≤ to) × (to ≤ length out.now) }
    ensures within { from + bytes_moved result ≤ to }
    ensures out { Appends (W.contents sink.old) (W.contents sink.new) (take (bytes_moved result) (drop from out.now)) }
{
    moved::moved_by(sink.write(&out[from..to]))
}

// A write may take a part. The loop counts turns that no run uses up.
pub fn flush<W: Write>(sink: &mut W, out: &[u8], used: usize) -> Result<(), Unwritten>
    requires { used ≤ length out.now }
    ensures within { bytes_out used result ≤ used }
    ensures out { Appends (W.contents sink.old) (W.contents sink.new) (take (bytes_out used result) out.now) }
    ensures again { IfErr result (λ h. is_eintr h.error ≡ false) }
    ensures short { IfErr result (λ h. h.bytes < used) }
{
    let mut bytes: usize = 0;
    'again: for _ in 0..u64::MAX {
        if bytes == used {
            return Ok(());
        }
        match moved::after_write(write_once(sink, out, bytes, used)) {
            Ok(count) => bytes += count,
            Err(error) => return Err(Unwritten { bytes, error }),
        }
    }
    if bytes == used {
        return Ok(());
    }
    Err(Unwritten { bytes, error: None })
}

// How the listing ended, where a write failed.
pub fn with_room<W: Write>(
    sink: &mut W,
    out: &[u8],
    used: usize,
    written: u64,
) -> Result<Room, Outcome>
    requires { (used ≤ length out.now) × (packet_room ≤ length out.now) }
    ensures room { IfOk result (λ r. PacketRoom out.now r.used) }
    ensures ended { IfErr result (λ o. Concluded None (Some o)) }
    ensures out { IfOk result (λ r. Appends (W.contents sink.old) (W.contents sink.new) (take (used - r.used) out.now)) }
{
    if log_telling::inner::is_room(out.len() - used) {
        return Ok(Room { used, written });
    }
    match flush(sink, out, used) {
        Ok(()) => {
            let written = written.wrapping_add(used as u64);
            Ok(Room { used: 0, written })
        }
        Err(hole) => Err(outcome::write_failed(written, hole)),
    }
}
