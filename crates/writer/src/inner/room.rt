// Whether a lent packet has room, without a sum of bits that could pass 2^64.
ghost use Rattle.std.specs.Prelude.{◌≡◌, ◌+◌, ◌*◌, ◌<◌, min, ltb, true, false, MatchResult};
ghost use Rattle.types.specs.Types.{longest_packet};
ghost use Rattle.writer.specs.Answers.{bits_with};

use crate::WriteError;
use types::MAX_PACKET_BITS;

// Whether so many bits are more than so many bytes have.
pub fn past(bytes: usize, bits: u64) -> bool
    ensures { result ≡ ltb (8 * bytes) bits }
{
    (bytes as u64) < bits.div_ceil(8)
}

fn none_for(room: usize, at: u64, more: u64) -> bool
    requires { more < 65536 }
    ensures { result ≡ ltb (8 * min room longest_packet) (at + more) }
{
    at > MAX_PACKET_BITS || at + more > MAX_PACKET_BITS || past(room, at + more)
}

// 5 where the cursor is past its room.
pub fn reached(room: usize, at: u64) -> Result<(), WriteError>
    ensures { MatchResult result
        (λ _. ltb (8 * room) at ≡ false)
        (λ e. (ltb (8 * room) at ≡ true) × (e ≡ WriteError.CursorPastRoom at (8 * room))) }
{
    if past(room, at) {
        return Err(WriteError::CursorPastRoom {
            position: at,
            available: 8 * room as u64,
        });
    }
    Ok(())
}

// 17 where there is no room for so many bits more.
pub fn found(room: usize, at: u64, more: u64) -> Result<(), WriteError>
    requires { more < 65536 }
    ensures { MatchResult result
        (λ _. ltb (8 * min room longest_packet) (at + more) ≡ false)
        (λ e. (ltb (8 * min room longest_packet) (at + more) ≡ true) × (e ≡ WriteError.NoRoom (bits_with at more))) }
{
    if none_for(room, at, more) {
        return Err(WriteError::NoRoom {
            bits: at.saturating_add(more),
        });
    }
    Ok(())
}
