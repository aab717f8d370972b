// Draining. It writes six words; the unfinished messages go to the output and the list.
ghost use Rattle.std.specs.Prelude.{◌≡◌};
ghost use Rattle.bunch_held.specs.Memory.{held_memory, accumulator_of};
ghost use Rattle.bunch.specs.Draining.{drained};
ghost use Rattle.exports_bunch.specs.Drained.{shown_byte_count, drained_words};

use bunch::{Listed, drains, inner};
use bunch_held::Accumulator;
use bunch_places::Place;
use exports_bunch_words::taken::said;

pub type DrainedWords = [u64; 6];

#[unsafe(no_mangle)]
pub extern "C" fn gritwheel_drain_unfinished(
    max_active: usize,
    max_buffered_bits: u64,
    active: usize,
    total: u64,
    channels: &[u32],
    places: &[Place],
    arena: &[u8],
    output: &mut [u8],
    list: &mut [Listed],
    out: &mut DrainedWords,
)
    ensures { let a = accumulator_of max_active max_buffered_bits active total in
        let before = held_memory channels.now places.now arena.now in
        let reply = drained a before output.old list.old in
        (out.new ≡ drained_words reply (shown_byte_count a before))
        × ((output.new ≡ reply.output) × (list.new ≡ reply.list)) }
{
    let mut a = Accumulator {
        max_active,
        max_buffered_bits,
        active,
        total_buffered_bits: total,
    };
    let answer = drains::drain_unfinished(&mut a, channels, places, arena, output, list);
    match answer {
        Ok(n) => {
            // The memory was sound, so its places can be counted.
            let wanted = inner::count(places, active);
            *out = [
                0,
                0,
                a.active as u64,
                a.total_buffered_bits,
                n as u64,
                wanted.bytes as u64,
            ];
        }
        Err(e) => {
            let s = said(e);
            *out = [
                s.number,
                s.returned,
                a.active as u64,
                a.total_buffered_bits,
                0,
                0,
            ];
        }
    }
}
