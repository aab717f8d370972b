// Taking and retiring. Each writes 26 words; the lent memory is three columns and an output.
ghost use Rattle.std.specs.Prelude.{◌≡◌};
ghost use Rattle.bunch_held.specs.Memory.{held_memory, accumulator_of};
ghost use Rattle.bunch_held.specs.Steps.{taking, retiring};
ghost use Rattle.bunch_held.specs.Calls.{called};
ghost use Rattle.exports_bunch_words.specs.Handed.{handed_words};

use bunch::calls;
use bunch_held::{Accumulator, LentMemory};
use bunch_places::Place;
use exports_bunch_words::taken;
use exports_bunch_words::taken::HandedWords;

#[unsafe(no_mangle)]
pub extern "C" fn gritwheel_take_completed(
    max_active: usize,
    max_buffered_bits: u64,
    active: usize,
    total: u64,
    ch_index: u32,
    channels: &mut [u32],
    places: &mut [Place],
    arena: &mut [u8],
    output: &mut [u8],
    out: &mut HandedWords,
)
    ensures { let a = accumulator_of max_active max_buffered_bits active total in
        let before = held_memory channels.old places.old arena.old in
        let after = held_memory channels.new places.new arena.new in
        let reply = called a before ch_index taking output.old in
        (out.new ≡ handed_words reply) × ((after ≡ reply.memory) × (output.new ≡ reply.output)) }
{
    let mut a = Accumulator {
        max_active,
        max_buffered_bits,
        active,
        total_buffered_bits: total,
    };
    let mut memory = LentMemory {
        channels,
        places,
        arena,
    };
    let answer = calls::take_completed(&mut a, ch_index, &mut memory, output);
    *out = taken::of_taken(answer, a);
}

#[unsafe(no_mangle)]
pub extern "C" fn gritwheel_retire_channel(
    max_active: usize,
    max_buffered_bits: u64,
    active: usize,
    total: u64,
    ch_index: u32,
    channels: &mut [u32],
    places: &mut [Place],
    arena: &mut [u8],
    output: &mut [u8],
    out: &mut HandedWords,
)
    ensures { let a = accumulator_of max_active max_buffered_bits active total in
        let before = held_memory channels.old places.old arena.old in
        let after = held_memory channels.new places.new arena.new in
        let reply = called a before ch_index retiring output.old in
        (out.new ≡ handed_words reply) × ((after ≡ reply.memory) × (output.new ≡ reply.output)) }
{
    let mut a = Accumulator {
        max_active,
        max_buffered_bits,
        active,
        total_buffered_bits: total,
    };
    let mut lent = LentMemory {
        channels,
        places,
        arena,
    };
    let answer = calls::retire_channel(&mut a, ch_index, &mut lent, output);
    *out = taken::of_taken(answer, a);
}
