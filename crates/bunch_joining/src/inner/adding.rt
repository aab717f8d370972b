// A fragment is added: the Rust's `add_fragment`.
ghost use Rattle.std.specs.Prelude.{◌≡◌, List, [], ℕ, ◌+◌, ◌-◌, ◌≤◌, ◌<◌, eqb, ltb, length, get_or, take, drop, Ok, Err};
ghost use Rattle.types.specs.Types.{longest_payload, most_buffered_bits};
ghost use Rattle.tables.specs.Tables.{slot_of};
ghost use Rattle.bunch_places.specs.Bytes.{bytes_of};
ghost use Rattle.bunch_judging.specs.Messages.{displaced};
ghost use Rattle.bunch_judging.specs.Effects.{effect_of};
ghost use Rattle.bunch_judging.specs.Standings.{held_of, standing_bits, displaced_values, of_displacement};
ghost use Rattle.bunch_held.specs.Steps.{adding, local};
ghost use Rattle.bunch_held.specs.Calls.{held_by, limits_of};
ghost use Rattle.bunch_settling.specs.Settling.{Using, SameSlices, counts_of, settled_memory};
ghost use Rattle.bunch_settling.specs.Giving.{Gives};
ghost use Rattle.bunch_joining.specs.Added.{of_judged};
ghost use Rattle.bunch_joining.specs.Meetings.{MeetsHeld, MeetsNothing, Meets, MeetableHeld, Meetable, Weighs};
ghost use Rattle.bunch_judging.specs.Held.{fragment_of};

use crate::Judged;
use bunch_held::inner::bytes_of;
use bunch_held::{Accumulator, BunchError};
use bunch_judging::headers::after_test;
use bunch_judging::inner::displacement::displaced;
use bunch_judging::inner::results::result;
use bunch_judging::{Displacement, Effect, Fate, PartialBunchResult, Standing};
use bunch_places::Place;
use bunch_places::inner::put_payload;
use bunch_settling::inner::fragments::{Weighed, bits_if, sequence_of, standing_of, weigh};
use bunch_settling::inner::messages::{SettledMemory, words_of};
use types::{MAX_PAYLOAD_BITS, RawBunchHeader};
use words::HeaderWords;

// What a fragment displaces at place i. Mostly nothing: the place's header is looked at only where bytes are shown.
fn displaced_at(
    e: Effect,
    met: Fate,
    held: Option<Standing>,
    s: &SettledMemory<'_>,
    i: usize,
    header: RawBunchHeader,
    bits: u64,
) -> Displacement
    requires { (e ≡ effect_of met header.b_partial_initial (eqb bits 0))
        × (i < length s.now.places.now)
        × (standing_bits held ≤ most_buffered_bits)
        × (bits ≤ longest_payload) }
    ensures { let words = drop 4 (get_or s.now.places.now i []) in
        ((bytes payload : List ℕ)
        → of_displacement result ≡ displaced_values (displaced met (held_of held words bytes) (fragment_of header bits payload))) }
{
    if e.shows_held | e.shows_payload {
        let p = s.places[i];
        return displaced(met, held, words_of(p), header, bits);
    }
    Displacement::Nothing
}

// What a fragment meets: what its channel holds and with how many bits, and whether it passes a limit.
#[derive(Clone, Copy)]
pub struct Meeting {
    pub standing: Option<Standing>,
    pub held: u64,
    pub full: bool,
    pub over: bool,
}

// Whether the buffered limit is passed: the message held counts no more, what is joined of it counts with the payload.
fn passed(a: Accumulator, held: u64, joins: u64, bits: u64) -> bool
    requires { (joins ≤ held)
        × (held ≤ a.total_buffered_bits)
        × (a.total_buffered_bits ≤ most_buffered_bits)
        × (bits ≤ longest_payload) }
    ensures { result ≡ ltb a.max_buffered_bits (a.total_buffered_bits - held + (joins + bits)) }
{
    a.max_buffered_bits < a.total_buffered_bits - held + (joins + bits)
}

// A message in place p: its channel has its place already.
fn meet_held(a: Accumulator, p: Place, initial: bool, bits: u64) -> Meeting
    requires { MeetableHeld a p bits }
    ensures { MeetsHeld a p initial bits result }
{
    let held = p[0];
    let joins = bits_if(!initial, held);
    Meeting {
        standing: Some(standing_of(p)),
        held,
        full: false,
        over: passed(a, held, joins, bits),
    }
}

fn meet_nothing(a: Accumulator, bits: u64) -> Meeting
    requires { (a.total_buffered_bits ≤ most_buffered_bits) × (bits ≤ longest_payload) }
    ensures { MeetsNothing a bits result }
{
    Meeting {
        standing: None,
        held: 0,
        full: a.max_active <= a.active,
        over: a.max_buffered_bits < a.total_buffered_bits + bits,
    }
}

fn meet(s: &SettledMemory<'_>, slot: Result<usize, usize>, initial: bool, bits: u64) -> Meeting
    requires { Meetable s.now.accumulator s.now.places.now slot bits }
    ensures { Meets s.now.accumulator s.now.places.now slot initial bits result }
{
    let a = s.accumulator;
    match slot {
        Ok(i) => meet_held(a, s.places[i], initial, bits),
        Err(_) => meet_nothing(a, bits),
    }
}

// To the channel's message at place i: what it met there, how that was weighed, and the result.
fn add_held(
    s: &mut SettledMemory<'_>,
    ch_index: u32,
    i: usize,
    met: Meeting,
    w: Weighed,
    answered: PartialBunchResult,
    header: RawBunchHeader,
    payload: &[u8],
    bits: u64,
    output: &mut [u8],
) -> Result<Judged, BunchError>
    requires { Using s.old.accumulator (settled_memory s.old) s.old.used
        × (slot_of ch_index (take s.old.accumulator.active s.old.channels.now) ≡ Ok i)
        × (bits ≤ longest_payload)
        × (bytes_of bits ≤ length payload.now)
        × MeetsHeld s.old.accumulator (get_or s.old.places.now i []) header.b_partial_initial bits met
        × Weighs met header bits w answered }
    ensures same { SameSlices s.old s.new }
    ensures gives { let before = settled_memory s.old in
        let fragment = fragment_of header bits payload.now in
        let a = s.old.accumulator in
        let step = local (limits_of a) (held_by a before) ch_index (adding fragment) output.old in
        Gives a before ch_index step (of_judged result) (counts_of s.new) (settled_memory s.new) output.new }
{
    let needed = w.held + bytes_of(w.payload);
    if output.len() < needed {
        return Err(BunchError::OutputShort {
            bytes: needed as u64,
        });
    }
    let standing = met.standing;
    let start = s.start_of(i);
    let e = w.effect;
    let becomes = w.fate;
    let gone = displaced_at(e, becomes, standing, s, i, header, bits);
    s.show(start, w.held, payload, w.payload, output);
    let h = after_test(standing, header);
    let sequence = sequence_of(h);
    s.settle_held(ch_index, i, start, e, h, sequence, payload, bits);
    Ok(Judged {
        result: answered,
        displaced: gone,
    })
}

// To a channel that holds nothing, and would stand at place i.
fn add_free(
    s: &mut SettledMemory<'_>,
    ch_index: u32,
    i: usize,
    met: Meeting,
    w: Weighed,
    answered: PartialBunchResult,
    header: RawBunchHeader,
    payload: &[u8],
    bits: u64,
    output: &mut [u8],
) -> Result<Judged, BunchError>
    requires { Using s.old.accumulator (settled_memory s.old) s.old.used
        × (slot_of ch_index (take s.old.accumulator.active s.old.channels.now) ≡ Err i)
        × (bits ≤ longest_payload)
        × (bytes_of bits ≤ length payload.now)
        × MeetsNothing s.old.accumulator bits met
        × Weighs met header bits w answered }
    ensures same { SameSlices s.old s.new }
    ensures gives { let before = settled_memory s.old in
        let fragment = fragment_of header bits payload.now in
        let a = s.old.accumulator in
        let step = local (limits_of a) (held_by a before) ch_index (adding fragment) output.old in
        Gives a before ch_index step (of_judged result) (counts_of s.new) (settled_memory s.new) output.new }
{
    let needed = bytes_of(w.payload);
    if output.len() < needed {
        return Err(BunchError::OutputShort {
            bytes: needed as u64,
        });
    }
    let becomes = w.fate;
    let words: HeaderWords = [0; 20];
    let gone = displaced(becomes, None, words, header, bits);
    put_payload(payload, w.payload, output, 0);
    let start = s.start_of(i);
    let sequence = sequence_of(header);
    let e = w.effect;
    s.settle_free(ch_index, i, start, e, header, sequence, payload, bits);
    Ok(Judged {
        result: answered,
        displaced: gone,
    })
}

// The payload's tests, then by what the channel holds.
pub fn add_fragment(
    s: &mut SettledMemory<'_>,
    ch_index: u32,
    header: RawBunchHeader,
    payload: &[u8],
    bits: u64,
    output: &mut [u8],
) -> Result<Judged, BunchError>
    requires { Using s.old.accumulator (settled_memory s.old) s.old.used }
    ensures same { SameSlices s.old s.new }
    ensures gives { let before = settled_memory s.old in
        let fragment = fragment_of header bits payload.now in
        let a = s.old.accumulator in
        let step = local (limits_of a) (held_by a before) ch_index (adding fragment) output.old in
        Gives a before ch_index step (of_judged result) (counts_of s.new) (settled_memory s.new) output.new }
{
    if MAX_PAYLOAD_BITS < bits {
        return Err(BunchError::PayloadTooLong { count: bits });
    }
    if payload.len() < bytes_of(bits) {
        return Err(BunchError::PayloadShort { count: bits });
    }
    let slot = s.find(ch_index);
    let met = meet(s, slot, header.b_partial_initial, bits);
    let standing = met.standing;
    let w = weigh(met.full, met.over, standing, met.held, header, bits);
    let becomes = w.fate;
    let answered = result(becomes, standing, header, bits);
    match slot {
        Ok(i) => add_held(
            s, ch_index, i, met, w, answered, header, payload, bits, output,
        ),
        Err(i) => add_free(
            s, ch_index, i, met, w, answered, header, payload, bits, output,
        ),
    }
}
