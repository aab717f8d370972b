// The partial tracker: the Rust's `track_partial_bunch` and `validate_continuation`.
ghost use Rattle.std.specs.Prelude.{◌≡◌, ◌≤◌, length, take, Ok, Err};
ghost use Rattle.tables.specs.Tables.{slot_of};
ghost use Rattle.packet_tracking.specs.Partials.{tracked, initial, continuing, judged, effected, in_flight};
ghost use Rattle.packet_tracking.specs.Verdicts.{Roomy, in_flight_of, tracking_effect, verdict_of};
ghost use Rattle.packet_tracking.specs.PartialColumns.{partials_at, LaidPartials, tracked_in, fragment_to, tracks_to};
ghost use Rattle.packet_tracking.specs.Fits.{TableFits, TableLive};

use crate::inner::retire::take_out;
use packet_header::BunchFields;
use tables::inner;
use types::continuing::continues;

// What is in flight on a channel, as its words.
#[derive(Clone, Copy, Debug, PartialEq, Eq)]
pub struct InFlight {
    pub sequence: u32,
    pub reliable: u32,
}

// What becomes of it.
#[derive(Clone, Copy, Debug, PartialEq, Eq)]
pub enum Effect {
    Stays,
    Puts,
    Removed,
}

#[derive(Clone, Copy, Debug, PartialEq, Eq)]
pub struct Tracked {
    pub error: bool,
    pub completed: bool,
}

#[derive(Clone, Copy, Debug, PartialEq, Eq)]
pub struct Verdict {
    pub effect: Effect,
    pub tracked: Tracked,
}

fn ruled(effect: Effect, error: bool, completed: bool) -> Verdict
    ensures { verdict_of result ≡ tracked (tracking_effect effect) error completed }
{
    Verdict {
        effect,
        tracked: Tracked { error, completed },
    }
}

fn initial(held: Option<InFlight>, last: bool, full: bool) -> Verdict
    ensures { verdict_of result ≡ initial last full (in_flight_of held) }
{
    match (held, last) {
        (None, true) => ruled(Effect::Removed, false, true),
        (None, false) if full => ruled(Effect::Stays, true, false),
        (None, false) => ruled(Effect::Puts, false, false),
        (Some(_), true) => ruled(Effect::Removed, true, false),
        (Some(_), false) => ruled(Effect::Puts, true, false),
    }
}

fn continuing(held: Option<InFlight>, last: bool, reliable: bool, next: u32) -> Verdict
    ensures { verdict_of result ≡ continuing last reliable next (in_flight_of held) }
{
    match held {
        None => ruled(Effect::Stays, true, false),
        Some(p) => {
            if !continues(p.sequence, p.reliable, reliable, next) {
                return ruled(Effect::Removed, true, false);
            }
            if last {
                return ruled(Effect::Removed, false, true);
            }
            ruled(Effect::Puts, false, false)
        }
    }
}

#[tactic(auto, unfolding(crate::specs::Partials::judged))]
pub fn judge(held: Option<InFlight>, f: BunchFields, sequence: u32, full: bool) -> Verdict
    ensures { verdict_of result ≡ judged f sequence full (in_flight_of held) }
{
    if f.b_partial_initial {
        return initial(held, f.b_partial_final, full);
    }
    continuing(held, f.b_partial_final, f.b_reliable, sequence)
}

// The channel's state stands at place i.
fn edit_there(
    channels: &mut [u32],
    sequences: &mut [u32],
    reliables: &mut [u32],
    live: &mut usize,
    i: usize,
    f: BunchFields,
    sequence: u32,
    effect: Effect,
)
    requires { TableLive live.old channels.old
        × (live.old ≤ length sequences.old)
        × (live.old ≤ length reliables.old)
        × (slot_of f.ch_index (take live.old channels.old) ≡ Ok i) }
    ensures { let t = partials_at live.old channels.old sequences.old reliables.old in
        LaidPartials (effected (tracking_effect effect) f.ch_index (in_flight f sequence) t)
        channels.old sequences.old reliables.old live.new channels.new sequences.new reliables.new }
{
    match effect {
        Effect::Stays => {}
        Effect::Puts => {
            sequences[i] = sequence;
            reliables[i] = u32::from(f.b_reliable);
        }
        Effect::Removed => take_out(channels, sequences, reliables, live, i),
    }
}

// The channel has no state, and would go to place i.
fn edit_free(
    channels: &mut [u32],
    sequences: &mut [u32],
    reliables: &mut [u32],
    live: &mut usize,
    i: usize,
    f: BunchFields,
    sequence: u32,
    effect: Effect,
)
    requires { TableLive live.old channels.old
        × (live.old ≤ length sequences.old)
        × (live.old ≤ length reliables.old)
        × (slot_of f.ch_index (take live.old channels.old) ≡ Err i)
        × Roomy effect live.old channels.old sequences.old reliables.old }
    ensures { let t = partials_at live.old channels.old sequences.old reliables.old in
        LaidPartials (effected (tracking_effect effect) f.ch_index (in_flight f sequence) t)
        channels.old sequences.old reliables.old live.new channels.new sequences.new reliables.new }
{
    match effect {
        Effect::Puts => {
            inner::insert(channels, *live, i, f.ch_index);
            inner::insert(sequences, *live, i, sequence);
            inner::insert(reliables, *live, i, u32::from(f.b_reliable));
            *live += 1;
        }
        Effect::Stays | Effect::Removed => {}
    }
}

fn track_fragment(
    channels: &mut [u32],
    sequences: &mut [u32],
    reliables: &mut [u32],
    live: &mut usize,
    limit: usize,
    f: BunchFields,
    sequence: u32,
) -> Tracked
    requires { TableFits limit live.old channels.old × (limit ≤ length sequences.old) × (limit ≤ length reliables.old) }
    ensures { tracked_in result live.new channels.new sequences.new reliables.new
        ≡ fragment_to limit live.old f sequence channels.old sequences.old reliables.old }
{
    match inner::find(channels, *live, f.ch_index) {
        Ok(i) => {
            let held = InFlight {
                sequence: sequences[i],
                reliable: reliables[i],
            };
            let v = judge(Some(held), f, sequence, limit <= *live);
            edit_there(
                channels, sequences, reliables, live, i, f, sequence, v.effect,
            );
            v.tracked
        }
        Err(i) => {
            let v = judge(None, f, sequence, limit <= *live);
            edit_free(
                channels, sequences, reliables, live, i, f, sequence, v.effect,
            );
            v.tracked
        }
    }
}

// A bunch that is no fragment, or that the limit refused, is not tracked.
pub fn track(
    channels: &mut [u32],
    sequences: &mut [u32],
    reliables: &mut [u32],
    live: &mut usize,
    limit: usize,
    f: BunchFields,
    sequence: u32,
    limited: bool,
) -> Tracked
    requires { TableFits limit live.old channels.old × (limit ≤ length sequences.old) × (limit ≤ length reliables.old) }
    ensures { tracked_in result live.new channels.new sequences.new reliables.new
        ≡ tracks_to limit live.old f sequence limited channels.old sequences.old reliables.old }
{
    if f.b_partial & !limited {
        return track_fragment(channels, sequences, reliables, live, limit, f, sequence);
    }
    Tracked {
        error: false,
        completed: false,
    }
}
