// The walks, in the order of vrf-net/src/field.rs, as the forms that keep the count beside the outcome.
ghost use Rattle.std.specs.Prelude.{◌≡◌, true, false, Err};
ghost use Rattle.field.specs.Walks.{parse_rep_layout, parse_class_net_cache, settled_walk};
ghost use Rattle.field_walking.specs.Answers.{stop_answer, of_walk};

use bitio::{reads, windows};
use bitio_window::Window;
use field_walking::inner::RecordKind;
use field_walking::{FieldError, Record, Stop, Walk, inner};

fn refused(e: FieldError) -> Walk
    ensures { result ≡ record { stop = Err e; count = 0 } }
{
    Walk {
        stop: Err(e),
        count: 0,
    }
}

// The bits after the end: retained, or skipped.
fn settle(walk: Walk, w: &mut Window, retain: bool) -> Walk
    ensures { (result.count ≡ walk.count) × (stop_answer result.stop w.new ≡ settled_walk retain (stop_answer walk.stop w.old)) }
{
    match walk.stop {
        Ok(Stop::Ended) if w.position.0 < w.length => {
            let tail = Stop::ClassNetCacheTail(w.length - w.position.0);
            if !retain {
                w.move_to_end();
            }
            Walk {
                stop: Ok(tail),
                ..walk
            }
        }
        _ => walk,
    }
}

fn rep_layout(bytes: &[u8], w: &mut Window, retain: bool, records: &mut [Record]) -> Walk
    ensures { of_walk result w.new records.new ≡ parse_rep_layout retain bytes.now records.old w.old }
{
    if let Err(e) = reads::read_bit(bytes, w) {
        return refused(e.into());
    }
    let walk = inner::walk(bytes, w, RecordKind::RepLayout, records);
    settle(walk, w, retain)
}

pub fn parse_rep_layout(bytes: &[u8], w: &mut Window, records: &mut [Record]) -> Walk
    ensures { of_walk result w.new records.new ≡ parse_rep_layout false bytes.now records.old w.old }
{
    rep_layout(bytes, w, false, records)
}

pub fn parse_rep_layout_content_block(bytes: &[u8], w: &mut Window, records: &mut [Record]) -> Walk
    ensures { of_walk result w.new records.new ≡ parse_rep_layout true bytes.now records.old w.old }
{
    rep_layout(bytes, w, true, records)
}

pub fn parse_class_net_cache(
    bytes: &[u8],
    w: &mut Window,
    function_count: u32,
    records: &mut [Record],
) -> Walk
    ensures { of_walk result w.new records.new ≡ parse_class_net_cache function_count bytes.now records.old w.old }
{
    if let Err(e) = windows::test(bytes, *w) {
        return refused(e.into());
    }
    if function_count == 0 {
        return refused(FieldError::UnresolvedFunctionCount);
    }
    inner::walk(bytes, w, RecordKind::ClassNetCache(function_count), records)
}
