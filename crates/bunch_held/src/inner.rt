// The test of the lent memory, and where a message starts.
ghost use Rattle.std.specs.Prelude.{◌≡◌, cond, ◌+◌, ◌*◌, ◌≤◌, ◌<◌, ◌^◌, length, take};
ghost use Rattle.types.specs.Types.{most_active_partials, most_buffered_bits};
ghost use Rattle.bunch_places.specs.Bytes.{part, bytes_of};
ghost use Rattle.bunch_held.specs.Memory.{held_memory, memory_of, bits_in_place, size_of, bits_all, size_all};
ghost use Rattle.bunch_held.specs.Sound.{fitting, spare_zero, words_sound, place_sound, places_sound};
ghost use Rattle.bunch_held.specs.Calls.{tested};

use crate::{Accumulator, BunchError, LentMemory};
use bunch_places::Place;
use tables::inner;
use types::{MAX_ACTIVE_PARTIAL_BUNCHES, MAX_BUFFERED_PARTIAL_BITS};

// The rules of opening, without a sum or a product that could wrap.
pub fn fitting(active: usize, buffered: u64, channels: usize, places: usize, arena: usize) -> bool
    ensures { result ≡ fitting active buffered channels places arena }
{
    if (active <= MAX_ACTIVE_PARTIAL_BUNCHES) & (buffered <= MAX_BUFFERED_PARTIAL_BITS) {
        let bytes = (buffered as usize + 7 * active + 7) / 8;
        return (active <= channels) & (active <= places) & (bytes <= arena);
    }
    false
}

pub fn bytes_of(bits: u64) -> usize
    requires { bits < 2 ^ 32 }
    ensures { result ≡ bytes_of bits }
{
    ((bits + 7) / 8) as usize
}

fn words_sound(p: Place) -> bool
    ensures { result ≡ words_sound p }
{
    (p[1] <= 1) & (p[2] <= 1) & (p[3] < 4294967296) & ((p[1] == 1) | (p[0] % 8 == 0))
}

fn spare_zero(arena: &[u8], start: usize, bits: u64) -> bool
    requires { (bits < 2 ^ 32) × (start + bytes_of bits ≤ length arena.now) }
    ensures { result ≡ spare_zero bits (part start (bytes_of bits) arena.now) }
{
    let rest = bits % 8;
    if rest == 0 {
        return true;
    }
    let last = start + (bits / 8) as usize;
    (arena[last] >> rest) == 0
}

#[tactic(auto, unfolding(crate::specs::Sound::place_sound))]
fn place_sound(p: Place, arena: &[u8], start: usize) -> bool
    requires { (bits_in_place p < 2 ^ 32) × (start + size_of p ≤ length arena.now) }
    ensures { result ≡ place_sound p (part start (size_of p) arena.now) }
{
    words_sound(p) & spare_zero(arena, start, p[0])
}

// The messages stand one after the other, so that none passes the arena's end while the room for what is left of the bits is there.
// Answers how many bytes of the arena they take.
fn places_sound(places: &[Place], arena: &[u8], total: u64) -> Option<usize>
    requires { (length places.now ≤ most_active_partials)
        × (total ≤ most_buffered_bits)
        × (total + 7 * length places.now ≤ 8 * length arena.now) }
    ensures { result ≡ cond (places_sound places.now arena.now total) (Some (size_all places.now)) None }
{
    let mut left = total;
    let mut start: usize = 0;
    for p in places {
        let bits = p[0];
        if left < bits {
            return None;
        }
        if !place_sound(*p, arena, start) {
            return None;
        }
        left -= bits;
        start += bytes_of(bits);
    }
    if left == 0 { Some(start) } else { None }
}

// One pass over the live channels and places, which answers how many bytes of the arena are used.
pub fn pass(
    a: Accumulator,
    channels: &[u32],
    places: &[Place],
    arena: &[u8],
) -> Result<usize, BunchError>
    ensures { result ≡ tested a (held_memory channels.now places.now arena.now) }
{
    let active = a.active;
    let fits = fitting(
        a.max_active,
        a.max_buffered_bits,
        channels.len(),
        places.len(),
        arena.len(),
    );
    if fits & (active <= a.max_active) & (a.total_buffered_bits <= a.max_buffered_bits) {
        let ordered = inner::ascending(channels, active);
        if ordered {
            return places_sound(&places[..active], arena, a.total_buffered_bits).ok_or(
                BunchError::Unsound,
            );
        }
    }
    Err(BunchError::Unsound)
}

impl LentMemory<'_> {
    // The same of the memory that is lent.
    pub fn test(&self, a: Accumulator) -> Result<usize, BunchError>
        ensures { result ≡ tested a (memory_of self.now) }
    {
        pass(a, self.channels, self.places, self.arena)
    }
}

// Where the message of place i starts in the arena.
pub fn start_of(places: &[Place], i: usize) -> usize
    requires { (i ≤ length places.now) × (i ≤ most_active_partials) × (bits_all (take i places.now) ≤ most_buffered_bits) }
    ensures { result ≡ size_all (take i places.now) }
{
    let mut start: usize = 0;
    for p in &places[..i] {
        start += bytes_of(p[0]);
    }
    start
}
