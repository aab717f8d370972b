// Opening. It writes five words.
ghost use Rattle.std.specs.Prelude.{◌≡◌};
ghost use Rattle.bunch_held.specs.Memory.{held_memory};
ghost use Rattle.bunch.specs.Opening.{of_opened_accumulator, opened_accumulator};
ghost use Rattle.exports_bunch.specs.Opening.{limits_words};

use bunch::{Unfit, opening};
use bunch_held::Accumulator;
use bunch_places::Place;

pub type LimitsWords = [u64; 5];

fn of_opened(r: Result<Accumulator, Unfit>) -> LimitsWords
    ensures { result ≡ limits_words (of_opened_accumulator r) }
{
    match r {
        Ok(a) => [
            0,
            a.max_active as u64,
            a.max_buffered_bits,
            a.active as u64,
            a.total_buffered_bits,
        ],
        Err(Unfit) => [9, 0, 0, 0, 0],
    }
}

#[unsafe(no_mangle)]
pub extern "C" fn gritwheel_with_limits(
    max_active: usize,
    max_buffered_bits: u64,
    channels: &[u32],
    places: &[Place],
    arena: &[u8],
    out: &mut LimitsWords,
)
    ensures { let before = held_memory channels.now places.now arena.now in
        out.new ≡ limits_words (opened_accumulator max_active max_buffered_bits before) }
{
    let opened = opening::with_limits(max_active, max_buffered_bits, channels, places, arena);
    *out = of_opened(opened);
}
