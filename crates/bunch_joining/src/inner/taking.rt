// A message is handed out: the Rust's `take_completed` and `retire_channel`.
ghost use Rattle.std.specs.Prelude.{◌≡◌, take, drop, Ok};
ghost use Rattle.tables.specs.Tables.{get, slot_of};
ghost use Rattle.words.specs.Words.{header_from};
ghost use Rattle.bunch_held.specs.Steps.{taken, retired};
ghost use Rattle.bunch_held.specs.Calls.{held_by};
ghost use Rattle.bunch_settling.specs.Settling.{Using, SameSlices, counts_of, settled_memory};
ghost use Rattle.bunch_settling.specs.Giving.{Gives};
ghost use Rattle.bunch_joining.specs.Taken.{of_handed};

use crate::PreservedPartial;
use bunch_held::BunchError;
use bunch_held::inner::bytes_of;
use bunch_places::Place;
use bunch_settling::inner::messages::{SettledMemory, words_of};
use types::RawBunchHeader;
use words::header_of;

fn header_in(p: Place) -> RawBunchHeader
    ensures { result ≡ header_from (drop 4 p) }
{
    header_of(words_of(p))
}

// The message at place i, finished or not.
fn hand_out(
    s: &mut SettledMemory<'_>,
    ch_index: u32,
    i: usize,
    output: &mut [u8],
) -> Result<Option<PreservedPartial>, BunchError>
    requires { Using s.old.accumulator (settled_memory s.old) s.old.used
        × (slot_of ch_index (take s.old.accumulator.active s.old.channels.now) ≡ Ok i) }
    ensures same { SameSlices s.old s.new }
    ensures gives { let before = settled_memory s.old in
        let step = retired (get ch_index (held_by s.old.accumulator before)) output.old in
        Gives s.old.accumulator before ch_index step (of_handed result) (counts_of s.new) (settled_memory s.new) output.new }
{
    let p = s.places[i];
    let bits = p[0];
    let n = bytes_of(bits);
    if output.len() < n {
        return Err(BunchError::OutputShort { bytes: n as u64 });
    }
    let start = s.start_of(i);
    s.copy_out(start, n, output);
    s.drop_message(ch_index, i, start);
    let header = header_in(p);
    Ok(Some(PreservedPartial {
        header,
        bit_count: bits,
    }))
}

pub fn retire_channel(
    s: &mut SettledMemory<'_>,
    ch_index: u32,
    output: &mut [u8],
) -> Result<Option<PreservedPartial>, BunchError>
    requires { Using s.old.accumulator (settled_memory s.old) s.old.used }
    ensures same { SameSlices s.old s.new }
    ensures gives { let before = settled_memory s.old in
        let step = retired (get ch_index (held_by s.old.accumulator before)) output.old in
        Gives s.old.accumulator before ch_index step (of_handed result) (counts_of s.new) (settled_memory s.new) output.new }
{
    match s.find(ch_index) {
        Ok(i) => hand_out(s, ch_index, i, output),
        Err(_) => Ok(None),
    }
}

// Only a finished message is taken.
pub fn take_completed(
    s: &mut SettledMemory<'_>,
    ch_index: u32,
    output: &mut [u8],
) -> Result<Option<PreservedPartial>, BunchError>
    requires { Using s.old.accumulator (settled_memory s.old) s.old.used }
    ensures same { SameSlices s.old s.new }
    ensures gives { let before = settled_memory s.old in
        let step = taken (get ch_index (held_by s.old.accumulator before)) output.old in
        Gives s.old.accumulator before ch_index step (of_handed result) (counts_of s.new) (settled_memory s.new) output.new }
{
    match s.find(ch_index) {
        Ok(i) => {
            let p = s.places[i];
            if p[1] == 1 {
                return hand_out(s, ch_index, i, output);
            }
            Ok(None)
        }
        Err(_) => Ok(None),
    }
}
