// Memory that was tested, and its edits: each lays the state that it means, with its counts.
ghost use Rattle.std.specs.Prelude.{◌≡◌, List, [], ◌++◌, ℕ, ◌+◌, ◌≤◌, length, get_or, set, take, drop};
ghost use Rattle.types.specs.Types.{most_active_partials, most_buffered_bits};
ghost use Rattle.tables.specs.Tables.{put, without, slot_of};
ghost use Rattle.bunch_places.specs.Bytes.{pasted, part, bytes_of, payload_bytes};
ghost use Rattle.bunch_judging.specs.Held.{Held};
ghost use Rattle.bunch_held.specs.Memory.{HeldMemory, held_memory, bits_in_place, bits_all, size_all};
ghost use Rattle.bunch_held.specs.Calls.{held_by};
ghost use Rattle.bunch_settling.specs.Settling.{Using, Occupied, Bytes, Changes, Starts, Is, Lays, SameSlices, counts_of, settled_memory};

use bunch_held::Accumulator;
use bunch_held::inner::{bytes_of, start_of};
use bunch_places::Place;
use bunch_places::inner::{copy_bytes, insert_place, move_bytes, put_payload, remove_place};
use tables::inner;
use words::HeaderWords;

// What is held, and how many bytes of the arena are used.
#[derive(Clone, Copy)]
pub struct Settled {
    pub accumulator: Accumulator,
    pub used: usize,
}

// The same with the lent memory, which was tested. The counts stand in it one by one: `Settled` is what a caller keeps of them.
#[derive(Drop)]
pub struct SettledMemory<'a> {
    pub accumulator: Accumulator,
    pub used: usize,
    pub channels: &'a mut [u32],
    pub places: &'a mut [Place],
    pub arena: &'a mut [u8],
}

impl SettledMemory<'_> {
    pub fn counts(&self) -> Settled
        ensures { result ≡ counts_of self.now }
    {
        Settled {
            accumulator: self.accumulator,
            used: self.used,
        }
    }

    // Where the channel's message stands, or would stand.
    pub fn find(&self, ch_index: u32) -> Result<usize, usize>
        requires { Using self.now.accumulator (settled_memory self.now) self.now.used }
        ensures { result ≡ slot_of ch_index (take self.now.accumulator.active self.now.channels.now) }
    {
        let live = self.accumulator.active;
        inner::find(self.channels, live, ch_index)
    }

    // Where the message of place i starts in the arena.
    pub fn start_of(&self, i: usize) -> usize
        requires { let places = self.now.places.now in
            (i ≤ length places) × (i ≤ most_active_partials) × (bits_all (take i places) ≤ most_buffered_bits) }
        ensures { result ≡ size_all (take i self.now.places.now) }
    {
        start_of(self.places, i)
    }

    // Some of the arena's bytes, to the output's front.
    pub fn copy_out(&self, from: usize, n: usize, output: &mut [u8])
        requires { (from + n ≤ length self.now.arena.now) × (n ≤ length output.old) }
        ensures { output.new ≡ pasted 0 (part from n self.now.arena.now) output.old }
    {
        copy_bytes(self.arena, from, n, output, 0);
    }

    // They, and then the payload's bits.
    pub fn show(&self, from: usize, n: usize, payload: &[u8], bits: u64, output: &mut [u8])
        requires { (from + n ≤ length self.now.arena.now)
            × (bytes_of bits ≤ length payload.now)
            × (n + bytes_of bits ≤ length output.old) }
        ensures { let shown = part from n self.now.arena.now ++ payload_bytes bits payload.now in
            output.new ≡ pasted 0 shown output.old }
    {
        self.copy_out(from, n, output);
        put_payload(payload, bits, output, n);
    }

    // The channel's message goes, and what stood behind it moves down.
    pub fn drop_message(&mut self, ch_index: u32, i: usize, start: usize)
        requires { Occupied self.old.accumulator (settled_memory self.old) self.old.used ch_index i start }
        ensures same { SameSlices self.old self.new }
        ensures lays { let a = self.old.accumulator in
            let before = settled_memory self.old in
            Lays a before (without ch_index (held_by a before)) (counts_of self.new) (settled_memory self.new) }
    {
        let used = self.used;
        let p = self.places[i];
        let bits = p[0];
        let n = bytes_of(bits);
        let next = start + n;
        let active = self.accumulator.active;
        move_bytes(self.arena, next, start, used - next);
        remove_place(self.places, active, i);
        inner::remove(self.channels, active, i);
        self.accumulator.active -= 1;
        self.accumulator.total_buffered_bits -= bits;
        self.used -= n;
    }

    // Of the message's bytes the first `keep` stay, and the payload's bits follow them: `before` bits become `after`. The place's
    // words are the caller's to write.
    pub fn change_bytes(
        &mut self,
        start: usize,
        before: u64,
        keep: usize,
        payload: &[u8],
        bits: u64,
        after: u64,
    )
        requires { Bytes self.old.accumulator self.old.arena.now self.old.used start before keep bits payload.now after }
        ensures same { SameSlices self.old self.new }
        ensures others { (self.new.channels.now ≡ self.old.channels.now) × (self.new.places.now ≡ self.old.places.now) }
        ensures lays { let a = self.old.accumulator in
            (m : HeldMemory) (c i : ℕ) (p : List ℕ)
            → m.arena ≡ self.old.arena.now
            → before ≡ bits_in_place (get_or m.places i [])
            → after ≡ bits_in_place p
            → Changes a m self.old.used c i start keep p bits payload.now
            → (h : Held) → Is h p (part start keep m.arena ++ payload_bytes bits payload.now)
            → Lays a m (put c h (held_by a m)) (counts_of self.new) (held_memory m.channels (set m.places i p) self.new.arena.now) }
    {
        let used = self.used;
        let size = bytes_of(before);
        let n = bytes_of(bits);
        let next = start + size;
        let at = start + keep;
        move_bytes(self.arena, next, at + n, used - next);
        put_payload(payload, bits, self.arena, at);
        let total = self.accumulator.total_buffered_bits;
        self.accumulator.total_buffered_bits = total - before + after;
        self.used = used - size + (keep + n);
    }

    // A channel that holds nothing gets a message, whose bits are the payload's.
    pub fn start_message(&mut self, ch_index: u32, i: usize, start: usize, p: Place, payload: &[u8])
        requires { Starts self.old.accumulator (settled_memory self.old) self.old.used ch_index i start p payload.now }
        ensures same { SameSlices self.old self.new }
        ensures lays { let a = self.old.accumulator in
            let before = settled_memory self.old in
            ((h : Held) → Is h p (payload_bytes (bits_in_place p) payload.now)
            → Lays a before (put ch_index h (held_by a before)) (counts_of self.new) (settled_memory self.new)) }
    {
        let used = self.used;
        let bits = p[0];
        let n = bytes_of(bits);
        let active = self.accumulator.active;
        move_bytes(self.arena, start, start + n, used - start);
        put_payload(payload, bits, self.arena, start);
        insert_place(self.places, active, i, p);
        inner::insert(self.channels, active, i, ch_index);
        self.accumulator.active += 1;
        self.accumulator.total_buffered_bits += bits;
        self.used += n;
    }
}

// A place's header, as words by value.
pub fn words_of(p: Place) -> HeaderWords
    ensures { result ≡ drop 4 p }
{
    // Word by word, as in `started_place`, where the time is told.
    [
        p[4], p[5], p[6], p[7], p[8], p[9], p[10], p[11], p[12], p[13], p[14], p[15], p[16], p[17],
        p[18], p[19], p[20], p[21], p[22], p[23],
    ]
}
