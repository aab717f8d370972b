// The public call on all channels: draining. It tests the lent memory, then goes on with the inner form.
ghost use Rattle.std.specs.Prelude.{◌≡◌, []};
ghost use Rattle.bunch_held.specs.Memory.{held_memory};
ghost use Rattle.bunch_held.specs.Calls.{counting};
ghost use Rattle.bunch.specs.Draining.{of_emptied, drained};

use crate::{Listed, inner};
use bunch_held::{Accumulator, BunchError, inner as memory};
use bunch_places::Place;

fn emptied(a: Accumulator) -> Accumulator
    ensures { result ≡ counting a [] }
{
    Accumulator {
        active: 0,
        total_buffered_bits: 0,
        ..a
    }
}

// The Rust's `drain_unfinished`, by ascending channel: how many messages are then in the list. The lent memory stays as it is: an
// accumulator with nothing held looks at none of it.
pub fn drain_unfinished(
    a: &mut Accumulator,
    channels: &[u32],
    places: &[Place],
    arena: &[u8],
    output: &mut [u8],
    list: &mut [Listed],
) -> Result<usize, BunchError>
    ensures { let before = held_memory channels.now places.now arena.now in
        of_emptied result a.new output.new list.new ≡ drained a.old before output.old list.old }
{
    let Ok(_) = memory::pass(*a, channels, places, arena) else {
        return Err(BunchError::Unsound);
    };
    let wanted = inner::count(places, a.active);
    if output.len() < wanted.bytes {
        return Err(BunchError::OutputShort {
            bytes: wanted.bytes as u64,
        });
    }
    if list.len() < wanted.messages {
        return Err(BunchError::ListFull {
            places: wanted.messages as u64,
        });
    }
    inner::list_all(*a, channels, places, arena, output, list);
    *a = emptied(*a);
    Ok(wanted.messages)
}
