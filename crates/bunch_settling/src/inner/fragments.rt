// A channel's place, and the memory after a fragment's effect.
ghost use Rattle.std.specs.Prelude.{◌≡◌, cond, List, [], ℕ, ◌<◌, ◌^◌, eqb, get_or, set, drop};
ghost use Rattle.tables.specs.Tables.{found, none};
ghost use Rattle.bunch_places.specs.Bytes.{bytes_of};
ghost use Rattle.bunch_judging.specs.Fates.{sequence_word, fate};
ghost use Rattle.bunch_judging.specs.Standings.{held_of};
ghost use Rattle.bunch_judging.specs.Effects.{effect_of};
ghost use Rattle.bunch_held.specs.Memory.{held_at};
ghost use Rattle.bunch_held.specs.Steps.{holding};
ghost use Rattle.bunch_held.specs.Calls.{held_by};
ghost use Rattle.bunch_settling.specs.Settling.{Lays, SameSlices, counts_of, settled_memory};
ghost use Rattle.bunch_settling.specs.Fragments.{started_words, joined_words, words_after, held_in_place, left_by, Joinable, Holds, Lacks};

use crate::inner::messages::SettledMemory;
use bitio_bits::inner::signed;
use bunch_held::inner::bytes_of;
use bunch_judging::effects::effect;
use bunch_judging::fates::fate;
use bunch_judging::{Effect, Fate, Standing};
use bunch_places::Place;
use types::RawBunchHeader;
use words::of_header;

pub fn standing_of(p: Place) -> Standing
    requires { get_or p 3 0 < 2 ^ 32 }
    ensures { ((bytes : List ℕ) → held_of (Some result) (drop 4 p) bytes ≡ found (held_at p bytes)) × (result.bits ≡ get_or p 0 0) }
{
    Standing {
        sequence: p[3] as u32,
        reliable: p[2] == 1,
        finished: p[1] == 1,
        bits: p[0],
    }
}

pub fn sequence_of(h: RawBunchHeader) -> u32
    ensures { (result ≡ sequence_word h) × (result < 2 ^ 32) }
{
    signed::to_word(h.ch_sequence)
}

// The place of a message that starts with the header h.
fn started_place(h: RawBunchHeader, sequence: u32, bits: u64, finished: bool) -> Place
    ensures { result ≡ started_words h sequence bits finished }
{
    // Word by word: with the header's words copied over zeros, here and in `words_of`, a chain alone in flight took a fifth longer.
    let w = of_header(h);
    [
        bits,
        finished as u64,
        h.b_reliable as u64,
        sequence as u64,
        w[0],
        w[1],
        w[2],
        w[3],
        w[4],
        w[5],
        w[6],
        w[7],
        w[8],
        w[9],
        w[10],
        w[11],
        w[12],
        w[13],
        w[14],
        w[15],
        w[16],
        w[17],
        w[18],
        w[19],
    ]
}

// A fragment joins the message of place i: three of its words become others.
fn join_place(places: &mut [Place], i: usize, finished: bool, sequence: u32, bits: u64)
    requires { Joinable places.old i bits }
    ensures { let before = places.old in
        places.new ≡ set before i (joined_words (get_or before i []) sequence bits finished) }
{
    let held = places[i][0];
    places[i][0] = held + bits;
    places[i][1] = finished as u64;
    places[i][3] = sequence as u64;
}

fn put_place(
    places: &mut [Place],
    i: usize,
    anew: bool,
    finished: bool,
    h: RawBunchHeader,
    sequence: u32,
    bits: u64,
)
    requires { Joinable places.old i bits }
    ensures { let before = places.old in
        places.new ≡ set before i (words_after anew finished (get_or before i []) h sequence bits) }
{
    if anew {
        places[i] = started_place(h, sequence, bits, finished);
        return;
    }
    join_place(places, i, finished, sequence, bits);
}

pub fn bits_if(shown: bool, n: u64) -> u64
    ensures { result ≡ cond shown n 0 }
{
    if shown { n } else { 0 }
}

// A fate with its effect, and how much is shown: bytes of the held message, bits of the payload.
#[derive(Clone, Copy)]
pub struct Weighed {
    pub fate: Fate,
    pub effect: Effect,
    pub held: usize,
    pub payload: u64,
}

pub fn weigh(
    full: bool,
    over: bool,
    standing: Option<Standing>,
    held: u64,
    header: RawBunchHeader,
    bits: u64,
) -> Weighed
    requires { held < 2 ^ 32 }
    ensures { ((words bytes : List ℕ) → result.fate ≡ fate full over (held_of standing words bytes) header bits)
        × (result.effect ≡ effect_of result.fate header.b_partial_initial (eqb bits 0))
        × (result.held ≡ cond result.effect.shows_held (bytes_of held) 0)
        × (result.payload ≡ cond result.effect.shows_payload bits 0) }
{
    let met = fate(full, over, standing, header, bits);
    let e = effect(met, header.b_partial_initial, bits == 0);
    Weighed {
        fate: met,
        effect: e,
        held: bytes_of(bits_if(e.shows_held, held)),
        payload: bits_if(e.shows_payload, bits),
    }
}

impl SettledMemory<'_> {
    // The channel's message stands at place i; h is the fragment's header after the sequence test, and `sequence` its word.
    pub fn settle_held(
        &mut self,
        ch_index: u32,
        i: usize,
        start: usize,
        e: Effect,
        h: RawBunchHeader,
        sequence: u32,
        payload: &[u8],
        bits: u64,
    )
        requires { Holds self.old.accumulator (settled_memory self.old) self.old.used ch_index i start e h sequence bits payload.now }
        ensures same { SameSlices self.old self.new }
        ensures lays { let a = self.old.accumulator in
            let before = settled_memory self.old in
            let left = left_by e (found (held_in_place i start before)) h bits payload.now in
            Lays a before (holding ch_index left (held_by a before)) (counts_of self.new) (settled_memory self.new) }
    {
        if e.stays {
            let held = self.places[i][0];
            let joins = bits_if(!e.anew, held);
            let keep = bytes_of(joins);
            put_place(self.places, i, e.anew, e.finished, h, sequence, bits);
            self.change_bytes(start, held, keep, payload, bits, joins + bits);
            return;
        }
        self.drop_message(ch_index, i, start);
    }

    // The channel holds nothing; its message would stand at place i.
    pub fn settle_free(
        &mut self,
        ch_index: u32,
        i: usize,
        start: usize,
        e: Effect,
        h: RawBunchHeader,
        sequence: u32,
        payload: &[u8],
        bits: u64,
    )
        requires { Lacks self.old.accumulator (settled_memory self.old) self.old.used ch_index i start e h sequence bits payload.now }
        ensures same { SameSlices self.old self.new }
        ensures lays { let a = self.old.accumulator in
            let before = settled_memory self.old in
            let left = left_by e none h bits payload.now in
            Lays a before (holding ch_index left (held_by a before)) (counts_of self.new) (settled_memory self.new) }
    {
        if e.stays {
            let next = started_place(h, sequence, bits, e.finished);
            self.start_message(ch_index, i, start, next, payload);
        }
    }
}
