// The public calls on no channel: opening over lent memory, and what an accumulator counts.
ghost use Rattle.std.specs.Prelude.{◌≡◌};
ghost use Rattle.bunch_held.specs.Memory.{held_memory};
ghost use Rattle.bunch.specs.Opening.{of_opened_accumulator, opened_accumulator};

use crate::Unfit;
use bunch_held::{Accumulator, inner};
use bunch_places::Place;

// The Rust's `with_limits`: refused where a limit or the lent room is unfit.
pub fn with_limits(
    max_active: usize,
    max_buffered_bits: u64,
    channels: &[u32],
    places: &[Place],
    arena: &[u8],
) -> Result<Accumulator, Unfit>
    ensures { let before = held_memory channels.now places.now arena.now in
        of_opened_accumulator result ≡ opened_accumulator max_active max_buffered_bits before }
{
    if inner::fitting(
        max_active,
        max_buffered_bits,
        channels.len(),
        places.len(),
        arena.len(),
    ) {
        return Ok(Accumulator {
            max_active,
            max_buffered_bits,
            active: 0,
            total_buffered_bits: 0,
        });
    }
    Err(Unfit)
}

pub fn active_count(a: Accumulator) -> usize
    ensures { result ≡ a.active }
{
    a.active
}

pub fn total_buffered_bits(a: Accumulator) -> u64
    ensures { result ≡ a.total_buffered_bits }
{
    a.total_buffered_bits
}
