// Adding a fragment. It writes 79 words; the header comes as its twenty words.
ghost use Rattle.std.specs.Prelude.{◌≡◌};
ghost use Rattle.words.specs.Words.{header_from};
ghost use Rattle.bunch_held.specs.Memory.{held_memory, accumulator_of};
ghost use Rattle.bunch_held.specs.Steps.{adding};
ghost use Rattle.bunch_held.specs.Calls.{called};
ghost use Rattle.exports_bunch_words.specs.Fragments.{fragment_words};
ghost use Rattle.bunch_judging.specs.Held.{fragment_of};

use bunch::calls;
use bunch_held::{Accumulator, LentMemory};
use bunch_places::Place;
use exports_bunch_words::fragments;
use exports_bunch_words::fragments::FragmentWords;
use words::{HeaderWords, header_of};

#[unsafe(no_mangle)]
pub extern "C" fn gritwheel_add_fragment(
    max_active: usize,
    max_buffered_bits: u64,
    active: usize,
    total: u64,
    ch_index: u32,
    header: &HeaderWords,
    payload: &[u8],
    bits: u64,
    channels: &mut [u32],
    places: &mut [Place],
    arena: &mut [u8],
    output: &mut [u8],
    out: &mut FragmentWords,
)
    ensures { let a = accumulator_of max_active max_buffered_bits active total in
        let before = held_memory channels.old places.old arena.old in
        let after = held_memory channels.new places.new arena.new in
        let fragment = fragment_of (header_from header.now) bits payload.now in
        let reply = called a before ch_index (adding fragment) output.old in
        (out.new ≡ fragment_words reply) × ((after ≡ reply.memory) × (output.new ≡ reply.output)) }
{
    let mut a = Accumulator {
        max_active,
        max_buffered_bits,
        active,
        total_buffered_bits: total,
    };
    let mut memory = LentMemory {
        channels,
        places,
        arena,
    };
    let h = header_of(*header);
    let answer = calls::add_fragment(&mut a, ch_index, h, payload, bits, &mut memory, output);
    *out = fragments::of_added(answer, a);
}
