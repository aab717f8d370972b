// A channel taken out of the partial tracker: the Rust's `retire_channel`, for this table.
ghost use Rattle.std.specs.Prelude.{◌≡◌, suc, ◌≤◌, ◌<◌, length, take};
ghost use Rattle.tables.specs.Columns.{laid, removed_at};
ghost use Rattle.tables.specs.Tables.{without};
ghost use Rattle.packet_tracking.specs.PartialColumns.{partials_at, LaidPartials};
ghost use Rattle.packet_tracking.specs.Fits.{TableLive};

use tables::inner;

// Place i falls vacant in each column of the partial tracker.
pub fn take_out(
    channels: &mut [u32],
    sequences: &mut [u32],
    reliables: &mut [u32],
    live: &mut usize,
    i: usize,
)
    requires { (i < live.old) × (live.old ≤ length channels.old) × (live.old ≤ length sequences.old) × (live.old ≤ length reliables.old) }
    ensures { (suc live.new ≡ live.old)
        × (channels.new ≡ laid (removed_at i (take live.old channels.old)) channels.old)
        × (sequences.new ≡ laid (removed_at i (take live.old sequences.old)) sequences.old)
        × (reliables.new ≡ laid (removed_at i (take live.old reliables.old)) reliables.old) }
{
    inner::remove(channels, *live, i);
    inner::remove(sequences, *live, i);
    inner::remove(reliables, *live, i);
    *live -= 1;
}

pub fn retire_partial(
    channels: &mut [u32],
    sequences: &mut [u32],
    reliables: &mut [u32],
    live: &mut usize,
    channel: u32,
)
    requires { TableLive live.old channels.old × (live.old ≤ length sequences.old) × (live.old ≤ length reliables.old) }
    ensures { let left = without channel (partials_at live.old channels.old sequences.old reliables.old) in
        LaidPartials left channels.old sequences.old reliables.old
        live.new channels.new sequences.new reliables.new }
{
    match inner::find(channels, *live, channel) {
        Ok(i) => take_out(channels, sequences, reliables, live, i),
        Err(_) => {}
    }
}
