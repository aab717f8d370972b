// The public calls on a channel: a fragment added, a finished message taken, a channel retired. Each tests the lent memory, then goes
// on with the inner form. A refusal leaves all as it was.
ghost use Rattle.std.specs.Prelude.{◌≡◌, Err};
ghost use Rattle.bunch_held.specs.declared.BunchError.{BunchError};
ghost use Rattle.bunch_held.specs.Memory.{memory_of, SameMemory};
ghost use Rattle.bunch_held.specs.Steps.{adding, taking, retiring};
ghost use Rattle.bunch_held.specs.Calls.{called};
ghost use Rattle.bunch_joining.specs.Taken.{of_taken};
ghost use Rattle.bunch_joining.specs.Added.{of_added};
ghost use Rattle.bunch_judging.specs.Held.{fragment_of};

use bunch_held::{Accumulator, BunchError, LentMemory};
use bunch_joining::inner::{adding, taking};
use bunch_joining::{Judged, PreservedPartial};
use bunch_settling::inner::messages::SettledMemory;
use types::RawBunchHeader;

// What a call that hands out a message answers where the memory isn't sound: not that it holds nothing.
fn unsound() -> Result<Option<PreservedPartial>, BunchError>
    ensures { result ≡ Err BunchError.Unsound }
{
    Err(BunchError::Unsound)
}

// The channel's finished message: its header and bits, its bytes to the output.
pub fn take_completed(
    a: &mut Accumulator,
    ch_index: u32,
    memory: &mut LentMemory<'_>,
    output: &mut [u8],
) -> Result<Option<PreservedPartial>, BunchError>
    ensures same { SameMemory memory.old memory.new }
    ensures reply { of_taken result a.new (memory_of memory.new) output.new
        ≡ called a.old (memory_of memory.old) ch_index taking output.old }
{
    let Ok(used) = memory.test(*a) else {
        return unsound();
    };
    let mut s = SettledMemory {
        accumulator: *a,
        used,
        channels: memory.channels,
        places: memory.places,
        arena: memory.arena,
    };
    let answer = taking::take_completed(&mut s, ch_index, output);
    *a = s.accumulator;
    answer
}

// The channel's message likewise, finished or not. No function over the inner form makes one of the two: a closure would hold the
// output, and no contract says what it leaves there.
pub fn retire_channel(
    a: &mut Accumulator,
    ch_index: u32,
    memory: &mut LentMemory<'_>,
    output: &mut [u8],
) -> Result<Option<PreservedPartial>, BunchError>
    ensures same { SameMemory memory.old memory.new }
    ensures reply { of_taken result a.new (memory_of memory.new) output.new
        ≡ called a.old (memory_of memory.old) ch_index retiring output.old }
{
    let Ok(used) = memory.test(*a) else {
        return unsound();
    };
    let mut s = SettledMemory {
        accumulator: *a,
        used,
        channels: memory.channels,
        places: memory.places,
        arena: memory.arena,
    };
    let answer = taking::retire_channel(&mut s, ch_index, output);
    *a = s.accumulator;
    answer
}

// A fragment: the first `bits` bits of the payload, with its header.
pub fn add_fragment(
    a: &mut Accumulator,
    ch_index: u32,
    header: RawBunchHeader,
    payload: &[u8],
    bits: u64,
    memory: &mut LentMemory<'_>,
    output: &mut [u8],
) -> Result<Judged, BunchError>
    ensures same { SameMemory memory.old memory.new }
    ensures reply { of_added result a.new (memory_of memory.new) output.new
        ≡ called a.old (memory_of memory.old) ch_index (adding (fragment_of header bits payload.now)) output.old }
{
    let used = memory.test(*a)?;
    let mut s = SettledMemory {
        accumulator: *a,
        used,
        channels: memory.channels,
        places: memory.places,
        arena: memory.arena,
    };
    let answer = adding::add_fragment(&mut s, ch_index, header, payload, bits, output);
    *a = s.accumulator;
    answer
}
