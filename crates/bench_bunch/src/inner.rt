// Many fragments added, and each finished message taken, in one call and without the test of the memory: as a program of Rattle
// goes on with what each call leaves.
ghost use Rattle.std.specs.Prelude.{◌≡◌, ◌≤◌, length};
ghost use Rattle.bunch_held.specs.Memory.{held_memory, accumulator_of};
ghost use Rattle.bunch_held.specs.Steps.{adding, taking};
ghost use Rattle.bunch_settling.specs.Settling.{Using, SameSlices, settled_memory};
ghost use Rattle.bunch_joining.specs.Added.{of_judged};
ghost use Rattle.bunch_joining.specs.Taken.{of_handed};
ghost use Rattle.bench_bunch.specs.Chains.{summed, answer_words, run, timed_call, turn, chains, Ends};
ghost use Rattle.bunch_judging.specs.Held.{fragment_of};

use bunch_held::{Accumulator, BunchError};
use bunch_joining::inner::{adding, taking};
use bunch_joining::{Judged, PreservedPartial};
use bunch_places::Place;
use bunch_settling::inner::messages::SettledMemory;
use exports_bunch_words::fragments::of_result;
use types::RawBunchHeader;
use words::{HeaderWords, header_of, of_header};

fn total(from: u64, words: &[u64]) -> u64
    ensures { result ≡ summed from words.now }
{
    let mut sum = from;
    for word in words {
        sum = sum.wrapping_add(*word);
    }
    sum
}

fn with_added(sum: u64, answer: Result<Judged, BunchError>) -> u64
    ensures { result ≡ summed sum (answer_words (of_judged answer)) }
{
    match answer {
        Ok(judged) => {
            let words = of_result(judged.result);
            total(sum, &words)
        }
        Err(_) => sum,
    }
}

fn with_taken(sum: u64, answer: Result<Option<PreservedPartial>, BunchError>) -> u64
    ensures { result ≡ summed sum (answer_words (of_handed answer)) }
{
    match answer {
        Ok(Some(message)) => {
            let words = of_header(message.header);
            total(sum.wrapping_add(message.bit_count), &words)
        }
        Ok(None) => sum,
        Err(_) => sum,
    }
}

// The sum, how many messages are live, and their bits.
pub type SumWords = [u64; 3];

fn add(
    s: &mut SettledMemory<'_>,
    sum: u64,
    header: RawBunchHeader,
    payload: &[u8],
    output: &mut [u8],
) -> u64
    requires { Using s.old.accumulator (settled_memory s.old) s.old.used }
    ensures same { SameSlices s.old s.new }
    ensures runs { let fragment = fragment_of header header.payload_bit_count payload.now in
        (run s.new.accumulator (settled_memory s.new) output.new result
        ≡ timed_call header.ch_index (adding fragment) (run s.old.accumulator (settled_memory s.old) output.old sum))
        × Using s.new.accumulator (settled_memory s.new) s.new.used }
{
    let bits = header.payload_bit_count as u64;
    let answer = adding::add_fragment(s, header.ch_index, header, payload, bits, output);
    with_added(sum, answer)
}

fn take(s: &mut SettledMemory<'_>, sum: u64, ch_index: u32, output: &mut [u8]) -> u64
    requires { Using s.old.accumulator (settled_memory s.old) s.old.used }
    ensures same { SameSlices s.old s.new }
    ensures runs { (run s.new.accumulator (settled_memory s.new) output.new result
        ≡ timed_call ch_index taking (run s.old.accumulator (settled_memory s.old) output.old sum))
        × Using s.new.accumulator (settled_memory s.new) s.new.used }
{
    let answer = taking::take_completed(s, ch_index, output);
    with_taken(sum, answer)
}

// A fragment is added, and its message taken if it is the last.
fn one(
    s: &mut SettledMemory<'_>,
    sum: u64,
    words: HeaderWords,
    payload: &[u8],
    output: &mut [u8],
) -> u64
    requires { Using s.old.accumulator (settled_memory s.old) s.old.used }
    ensures same { SameSlices s.old s.new }
    ensures runs { (run s.new.accumulator (settled_memory s.new) output.new result
        ≡ turn payload.now words (run s.old.accumulator (settled_memory s.old) output.old sum))
        × Using s.new.accumulator (settled_memory s.new) s.new.used }
{
    let header = header_of(words);
    let added = add(s, sum, header, payload, output);
    if header.b_partial_final {
        return take(s, added, header.ch_index, output);
    }
    added
}

// The headers in turn; the payloads, 61 of 1,000 bytes each, round and round. It answers how many bytes of the arena are then
// used, for the next call.
#[unsafe(no_mangle)]
pub extern "C" fn timing_chains(
    max_active: usize,
    max_buffered_bits: u64,
    active: usize,
    total_buffered_bits: u64,
    used_before: usize,
    headers: &[HeaderWords],
    payloads: &[u8],
    channels: &mut [u32],
    places: &mut [Place],
    arena: &mut [u8],
    output: &mut [u8],
    out: &mut SumWords,
) -> usize
    requires { let a = accumulator_of max_active max_buffered_bits active total_buffered_bits in
        Using a (held_memory channels.old places.old arena.old) used_before × (61000 ≤ length payloads.now) }
    ensures { let before = held_memory channels.old places.old arena.old in
        let after = held_memory channels.new places.new arena.new in
        let a = accumulator_of max_active max_buffered_bits active total_buffered_bits in
        let last = chains payloads.now headers.now (run a before output.old 0) in
        Ends last out.new after output.new result }
{
    let mut s = SettledMemory {
        accumulator: Accumulator {
            max_active,
            max_buffered_bits,
            active,
            total_buffered_bits,
        },
        used: used_before,
        channels,
        places,
        arena,
    };
    let mut sum: u64 = 0;
    for (k, words) in headers.iter().enumerate() {
        let at = (k % 61) * 1000;
        sum = one(&mut s, sum, *words, &payloads[at..at + 1000], output);
    }
    let left = s.counts();
    let a = left.accumulator;
    *out = [sum, a.active as u64, a.total_buffered_bits];
    left.used
}
