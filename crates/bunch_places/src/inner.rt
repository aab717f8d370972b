// A place put in or taken out, bytes moved and copied, and a payload's bits as bytes.
ghost use Rattle.std.specs.Prelude.{◌≡◌, ◌+◌, ◌%◌, ◌≤◌, ◌<◌, ◌^◌, length, take};
ghost use Rattle.tables.specs.Columns.{laid, inserted_at, removed_at};
ghost use Rattle.bunch_places.specs.Bytes.{pasted, part, moved, bytes_of, payload_bytes};

use crate::Place;
use tables::inner::{insert, remove};

pub fn insert_place(places: &mut [Place], live: usize, at: usize, p: Place)
    requires { (at ≤ live) × (live < length places.old) }
    ensures { places.new ≡ laid (inserted_at at p (take live places.old)) places.old }
{
    insert(places, live, at, p);
}

// The place that falls vacant keeps what stood there.
pub fn remove_place(places: &mut [Place], live: usize, at: usize)
    requires { (at < live) × (live ≤ length places.old) }
    ensures { places.new ≡ laid (removed_at at (take live places.old)) places.old }
{
    remove(places, live, at);
}

// By loops, over a block of a known length straight code: a copy by one of the library's calls has no place for a fault in one block or
// at one byte, which the edits try.
fn move_down_by_bytes(arena: &mut [u8], from: usize, to: usize, n: usize)
    requires { (to ≤ from) × (from + n ≤ length arena.old) }
    ensures { arena.new ≡ moved from to n arena.old }
{
    let mut i: usize = 0;
    while i < n {
        arena[to + i] = arena[from + i];
        i += 1;
    }
}

fn move_up_by_bytes(arena: &mut [u8], from: usize, to: usize, n: usize)
    requires { (from ≤ to) × (to + n ≤ length arena.old) }
    ensures { arena.new ≡ moved from to n arena.old }
{
    let mut i = n;
    while 0 < i {
        i -= 1;
        arena[to + i] = arena[from + i];
    }
}

// By way of a block of its own: what is read whole before it is written needs no test of how the two parts overlap.
fn move_block(arena: &mut [u8], from: usize, to: usize)
    requires { (from + 256 ≤ length arena.old) × (to + 256 ≤ length arena.old) }
    ensures { arena.new ≡ moved from to 256 arena.old }
{
    let mut block = [0u8; 256];
    copy_by_bytes(arena, from, 256, &mut block, 0);
    copy_by_bytes(&block, 0, 256, arena, to);
}

// In blocks; where they move that far, the last may write some bytes once more, and what is left over takes no loop.
fn move_down(arena: &mut [u8], from: usize, to: usize, n: usize)
    requires { (to ≤ from) × (from + n ≤ length arena.old) }
    ensures { arena.new ≡ moved from to n arena.old }
{
    let mut i: usize = 0;
    while 256 < n - i {
        move_block(arena, from + i, to + i);
        i += 256;
    }
    if 256 <= n {
        if 256 <= from - to {
            let last = n - 256;
            move_block(arena, from + last, to + last);
            return;
        }
    }
    move_down_by_bytes(arena, from + i, to + i, n - i);
}

fn move_up(arena: &mut [u8], from: usize, to: usize, n: usize)
    requires { (from ≤ to) × (to + n ≤ length arena.old) }
    ensures { arena.new ≡ moved from to n arena.old }
{
    let mut i = n;
    while 256 < i {
        i -= 256;
        move_block(arena, from + i, to + i);
    }
    if 256 <= n {
        if 256 <= to - from {
            move_block(arena, from, to);
            return;
        }
    }
    move_up_by_bytes(arena, from, to, i);
}

// From the end that is written over last; what stays where it is costs nothing.
#[tactic(auto, using(crate::proofs::Pastes::pasted_same))]
pub fn move_bytes(arena: &mut [u8], from: usize, to: usize, n: usize)
    requires { (from + n ≤ length arena.old) × (to + n ≤ length arena.old) }
    ensures { arena.new ≡ moved from to n arena.old }
{
    if to < from {
        move_down(arena, from, to, n);
    } else if from < to {
        move_up(arena, from, to, n);
    }
}

fn copy_by_bytes(src: &[u8], from: usize, n: usize, out: &mut [u8], at: usize)
    requires { (from + n ≤ length src.now) × (at + n ≤ length out.old) }
    ensures { out.new ≡ pasted at (part from n src.now) out.old }
{
    let mut i: usize = 0;
    while i < n {
        out[at + i] = src[from + i];
        i += 1;
    }
}

// Blocks of a known length, which the compiler makes straight code of; the last ends where all ends, and writes some bytes once more.
pub fn copy_bytes(src: &[u8], from: usize, n: usize, out: &mut [u8], at: usize)
    requires { (from + n ≤ length src.now) × (at + n ≤ length out.old) }
    ensures { out.new ≡ pasted at (part from n src.now) out.old }
{
    if n < 256 {
        copy_by_bytes(src, from, n, out, at);
        return;
    }
    let last = n - 256;
    let mut i: usize = 0;
    while i < last {
        copy_by_bytes(src, from + i, 256, out, at + i);
        i += 256;
    }
    copy_by_bytes(src, from + last, 256, out, at + last);
}

fn low(byte: u8, n: u64) -> u8
    requires { n < 8 }
    ensures { result ≡ byte % 2 ^ n }
{
    byte % (1 << n)
}

// The spare high bits of the last byte may be anything in src; in out they are zero.
pub fn put_payload(src: &[u8], bits: u64, out: &mut [u8], at: usize)
    requires { (bytes_of bits ≤ length src.now) × (at + bytes_of bits ≤ length out.old) }
    ensures { out.new ≡ pasted at (payload_bytes bits src.now) out.old }
{
    let whole = (bits / 8) as usize;
    let rest = bits % 8;
    copy_bytes(src, 0, whole, out, at);
    if 0 < rest {
        out[at + whole] = low(src[whole], rest);
    }
}
