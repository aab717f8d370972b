// One record at a time, in a window that has been tested.
ghost use Rattle.std.specs.Prelude.{◌≡◌, ◌<◌, max};
ghost use Rattle.bitio_window.specs.Sound.{Sound};
ghost use Rattle.bitio_window.specs.Answers.{answer_of};
ghost use Rattle.field_walking.specs.Records.{counted, rep_layout, call, class_net_cache, look, looked};
ghost use Rattle.field_walking.specs.Walks.{walked};
ghost use Rattle.field_walking.specs.Answers.{walk_told, of_walk};

use crate::{FieldError, FieldRecord, Record, Stop, Walk};
use bitio_window::inner::numbers;
use bitio_window::{BitError, Window, place_of};

// Which records a walk reads: the class net cache's with its function count. A stream (`Stream` of `field_records`) says more: whether
// the bits after a RepLayout's end are skipped or retained, which is settled after the walk.
#[derive(Clone, Copy, Debug, PartialEq, Eq)]
pub enum RecordKind {
    RepLayout,
    ClassNetCache(u32),
}

// What stands where a record is looked for.
#[derive(Clone, Copy, Debug, PartialEq, Eq)]
pub enum Step {
    Ends,
    Abandons,
    Found(FieldRecord),
}

// The count and the payload of a record whose handle has been read.
fn counted(bytes: &[u8], w: &mut Window, handle: u32) -> Result<Step, BitError>
    requires { Sound bytes.now w.old }
    ensures { (answer_of looked result w.new ≡ counted handle bytes.now w.old) × Sound bytes.now w.new }
{
    let bit_count = numbers::packed(bytes, w)?;
    let bits = u64::from(bit_count);
    if w.left() < bits {
        return Ok(Step::Abandons);
    }
    let found = FieldRecord {
        handle,
        bit_count,
        in_window: w.position,
        in_packet: w.packet_bit(),
    };
    w.advance(bits);
    Ok(Step::Found(found))
}

fn rep_layout(bytes: &[u8], w: &mut Window) -> Result<Step, BitError>
    requires { Sound bytes.now w.old }
    ensures { (answer_of looked result w.new ≡ rep_layout bytes.now w.old) × Sound bytes.now w.new }
{
    let code = numbers::packed(bytes, w)?;
    if code == 0 {
        return Ok(Step::Ends);
    }
    counted(bytes, w, code - 1)
}

fn call(bytes: &[u8], w: &mut Window, max: u32) -> Result<Step, BitError>
    requires { Sound bytes.now w.old × (0 < max) }
    ensures { (answer_of looked result w.new ≡ call max bytes.now w.old) × Sound bytes.now w.new }
{
    let handle = numbers::serialized(bytes, w, max)?;
    if w.left() < 8 {
        return Ok(Step::Abandons);
    }
    counted(bytes, w, handle)
}

fn at_least_two(count: u32) -> u32
    ensures { (result ≡ max count 2) × (0 < result) }
{
    count.max(2)
}

fn class_net_cache(bytes: &[u8], w: &mut Window, count: u32) -> Result<Step, BitError>
    requires { Sound bytes.now w.old }
    ensures { (answer_of looked result w.new ≡ class_net_cache count bytes.now w.old) × Sound bytes.now w.new }
{
    if w.left() == 0 {
        return Ok(Step::Ends);
    }
    call(bytes, w, at_least_two(count))
}

// Not a closure for each kind: the walk's clause would ask of it all that the definition `look` says, and that it moves on.
#[tactic(auto, unfolding(crate::specs::Records::look))]
pub fn look(bytes: &[u8], w: &mut Window, kind: RecordKind) -> Result<Step, BitError>
    requires { Sound bytes.now w.old }
    ensures { (answer_of looked result w.new ≡ look kind bytes.now w.old) × Sound bytes.now w.new }
{
    match kind {
        RecordKind::RepLayout => rep_layout(bytes, w),
        RecordKind::ClassNetCache(count) => class_net_cache(bytes, w, count),
    }
}

// A place for each record, in order, as the count says that is 0 before.
fn walk_on(
    bytes: &[u8],
    w: &mut Window,
    kind: RecordKind,
    records: &mut [Record],
    count: &mut usize,
) -> Result<Stop, FieldError>
    requires { Sound bytes.now w.old × (count.old ≡ 0) }
    ensures { walk_told result count.new w.new records.new ≡ walked (look kind) bytes.now records.old w.old }
{
    // no `for` over the places: past the last one a record is looked for once more, and refused
    loop {
        let start = *w;
        match look(bytes, w, kind)? {
            Step::Ends => return Ok(Stop::Ended),
            Step::Abandons => {
                let bits = start.left();
                w.move_to_end();
                return Ok(Stop::Abandoned(bits));
            }
            Step::Found(found) => {
                // not by `get_mut`: of a slice's elements nothing is known after a write through it
                let k = *count;
                if k >= records.len() {
                    *w = start;
                    return Err(FieldError::RecordListFull {
                        position: place_of(start),
                    });
                }
                records[k] = Record::from(found);
            }
        }
        *count += 1;
    }
}

pub fn walk(bytes: &[u8], w: &mut Window, kind: RecordKind, records: &mut [Record]) -> Walk
    requires { Sound bytes.now w.old }
    ensures { of_walk result w.new records.new ≡ walked (look kind) bytes.now records.old w.old }
{
    // A copy moves in the loop: moving what `w` points to took a class net cache's walk 9 to 22 percent longer.
    let mut at = *w;
    let mut count = 0;
    let stop = walk_on(bytes, &mut at, kind, records, &mut count);
    *w = at;
    Walk {
        stop,
        count: count as u64,
    }
}
