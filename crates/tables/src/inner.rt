// Edits of one column, and the search of a channel in its column.
ghost use Rattle.std.specs.Prelude.{◌≡◌, true, ◌+◌, ◌-◌, ◌≤◌, ◌<◌, length, take};
ghost use Rattle.types.specs.Types.{most_channels};
ghost use Rattle.tables.specs.Columns.{laid, inserted_at, removed_at, ascending};
ghost use Rattle.tables.specs.Search.{Rising, Near};
ghost use Rattle.tables.specs.Tables.{slot_of};

use crate::Slot;

// No way out in the loop, so that it is vector code.
pub fn ascending(channels: &[u32], live: usize) -> bool
    requires { live ≤ length channels.now }
    ensures { result ≡ ascending (take live channels.now) }
{
    let mut ok = true;
    for i in 1..live {
        ok &= channels[i - 1] < channels[i];
    }
    ok
}

// One halving. It looks at one place and chooses between two numbers: no branch for the processor to guess.
fn step(held: &[u32], base: usize, half: usize, channel: u32) -> usize
    requires { Rising held.now × (0 < length held.now) × (0 < half) × (half ≤ 2048)
        × Near held.now (length held.now) channel base (half + half) }
    ensures { Near held.now (length held.now) channel result half }
{
    let next = held.len().min(base + half);
    if held[next - 1] < channel { next } else { base }
}

// To within 256 places; a table of no more takes no step.
fn high(held: &[u32], channel: u32) -> usize
    requires { Rising held.now × (0 < length held.now) }
    ensures { Near held.now (length held.now) channel result 256 }
{
    if held.len() <= 256 {
        return 0;
    }
    let first = step(held, 0, 2048, channel);
    let second = step(held, first, 1024, channel);
    let third = step(held, second, 512, channel);
    step(held, third, 256, channel)
}

// The last n places are counted, all of them, as vector code.
fn count(held: &[u32], from: usize, n: usize, channel: u32) -> usize
    requires { Rising held.now × (from + n ≤ length held.now) × (n ≤ 32) × Near held.now (length held.now) channel from n }
    ensures { Near held.now (length held.now) channel result 0 }
{
    let mut k: u32 = 0;
    for one in &held[from..from + n] {
        if *one < channel {
            k += 1;
        }
    }
    from + k as usize
}

// To within 8 places. Channels ascend, so one stands no further up than its own number, and no further below that than numbers up to
// the last channel are free: where these are few, as where a channel is opened by the lowest free number, no step is taken.
fn near(held: &[u32], channel: u32) -> usize
    requires { Rising held.now × (0 < length held.now) }
    ensures { Near held.now (length held.now) channel result 8 }
{
    let free = held[held.len() - 1] as usize + 1 - held.len();
    if free <= 8 {
        return held.len().min((channel as usize).saturating_sub(free));
    }
    let near256 = high(held, channel);
    let near128 = step(held, near256, 128, channel);
    let near64 = step(held, near128, 64, channel);
    let near32 = step(held, near64, 32, channel);
    let near16 = step(held, near32, 16, channel);
    step(held, near16, 8, channel)
}

// How many of the channels are below this one.
fn below(held: &[u32], channel: u32) -> usize
    requires { Rising held.now }
    ensures { Near held.now (length held.now) channel result 0 }
{
    if held.len() < 32 {
        return count(held, 0, held.len(), channel);
    }
    let near8 = near(held, channel);
    count(held, near8.min(held.len() - 8), 8, channel)
}

pub fn find(channels: &[u32], live: usize, channel: u32) -> Slot
    requires { (live ≤ length channels.now) × (live ≤ most_channels) × (ascending (take live channels.now) ≡ true) }
    ensures { result ≡ slot_of channel (take live channels.now) }
{
    let held = &channels[..live];
    let i = below(held, channel);
    if i < held.len() && held[i] == channel {
        Ok(i)
    } else {
        Err(i)
    }
}

pub fn insert<T: Copy>(column: &mut [T], live: usize, at: usize, x: T)
    requires { (at ≤ live) × (live < length column.old) }
    ensures { column.new ≡ laid (inserted_at at x (take live column.old)) column.old }
{
    column.copy_within(at..live, at + 1);
    column[at] = x;
}

// The place that falls vacant keeps what stood there.
pub fn remove<T: Copy>(column: &mut [T], live: usize, at: usize)
    requires { (at < live) × (live ≤ length column.old) }
    ensures { column.new ≡ laid (removed_at at (take live column.old)) column.old }
{
    column.copy_within(at + 1..live, at);
}
