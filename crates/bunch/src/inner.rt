// What a drain shows, place by place: how much it is, and the copying of it.
ghost use Rattle.std.specs.Prelude.{◌≡◌, ◌∷◌, ◌+◌, ◌≤◌, ◌<◌, ◌^◌, length, take, drop};
ghost use Rattle.types.specs.Types.{most_active_partials, most_buffered_bits};
ghost use Rattle.bunch_places.specs.Bytes.{pasted, part};
ghost use Rattle.bunch_held.specs.Memory.{held_memory, bits_in_place, size_of, sum_of, bits_all, bytes_all};
ghost use Rattle.bunch_held.specs.State.{Stands};
ghost use Rattle.bunch_held.specs.Calls.{held_by};
ghost use Rattle.bunch.specs.Draining.{unfinished, listed_all};
ghost use Rattle.bunch.specs.Shown.{is_finished, shown_count, shown_size, shown_bytes, shown_place};

use crate::Listed;
use bunch_held::{Accumulator, inner};
use bunch_places::{Place, inner as bytes};

#[derive(Clone, Copy)]
pub struct Wanted {
    pub messages: usize,
    pub bytes: usize,
}

fn is_finished(p: Place) -> bool
    ensures { result ≡ is_finished p }
{
    p[1] == 1
}

#[tactic(auto, unfolding(crate::specs::Shown::shown_count))]
fn shown_count(p: Place) -> usize
    ensures { result ≡ shown_count p }
{
    if is_finished(p) { 0 } else { 1 }
}

#[tactic(auto, unfolding(crate::specs::Shown::shown_size))]
fn shown_size(p: Place) -> usize
    requires { bits_in_place p < 2 ^ 32 }
    ensures { result ≡ shown_size p }
{
    if is_finished(p) {
        0
    } else {
        inner::bytes_of(p[0])
    }
}

// What the first places show in all.
pub fn count(places: &[Place], live: usize) -> Wanted
    requires { (live ≤ length places.now) × (live ≤ most_active_partials) × (bits_all (take live places.now) ≤ most_buffered_bits) }
    ensures { let first = take live places.now in
        (result.messages ≡ sum_of shown_count first) × (result.bytes ≡ sum_of shown_size first) }
{
    let mut messages: usize = 0;
    let mut bytes: usize = 0;
    for p in &places[..live] {
        let place = *p;
        messages += shown_count(place);
        bytes += shown_size(place);
    }
    Wanted { messages, bytes }
}

fn listed(channel: u32, p: Place) -> Listed
    ensures { result ≡ channel ∷ bits_in_place p ∷ drop 4 p }
{
    // Word by word: with the header's words copied over zeros a drain of 64 messages took 2.5 times as long.
    [
        channel as u64,
        p[0],
        p[4],
        p[5],
        p[6],
        p[7],
        p[8],
        p[9],
        p[10],
        p[11],
        p[12],
        p[13],
        p[14],
        p[15],
        p[16],
        p[17],
        p[18],
        p[19],
        p[20],
        p[21],
        p[22],
        p[23],
    ]
}

// One message, whose bytes start at `start`, to place `at` of the output and place `n` of the list.
fn list_one(
    channel: u32,
    p: Place,
    arena: &[u8],
    start: usize,
    output: &mut [u8],
    at: usize,
    list: &mut [Listed],
    n: usize,
)
    requires { (bits_in_place p < 2 ^ 32)
        × (start + size_of p ≤ length arena.now)
        × (at + shown_size p ≤ length output.old)
        × (n + shown_count p ≤ length list.old) }
    ensures output { output.new ≡ pasted at (shown_bytes p (part start (size_of p) arena.now)) output.old }
    ensures list { list.new ≡ pasted n (shown_place channel p) list.old }
{
    if is_finished(p) {
        return;
    }
    let size = inner::bytes_of(p[0]);
    bytes::copy_bytes(arena, start, size, output, at);
    list[n] = listed(channel, p);
}

// All of them, in the table's order, which is by ascending channel.
pub fn list_all(
    a: Accumulator,
    channels: &[u32],
    places: &[Place],
    arena: &[u8],
    output: &mut [u8],
    list: &mut [Listed],
)
    requires { let memory = held_memory channels.now places.now arena.now in
        let shown = unfinished (held_by a memory) in
        Stands a memory × (length (bytes_all shown) ≤ length output.old) × (length shown ≤ length list.old) }
    ensures { let before = held_memory channels.now places.now arena.now in
        let shown = unfinished (held_by a before) in
        (output.new ≡ pasted 0 (bytes_all shown) output.old)
        × (list.new ≡ pasted 0 (listed_all shown) list.old) }
{
    let live = a.active;
    let mut start: usize = 0;
    let mut at: usize = 0;
    let mut n: usize = 0;
    // By number: over `enumerate` each goal would be of a part of the columns, and no proof was found.
    for i in 0..live {
        let p = places[i];
        list_one(channels[i], p, arena, start, output, at, list, n);
        start += inner::bytes_of(p[0]);
        at += shown_size(p);
        n += shown_count(p);
    }
}
