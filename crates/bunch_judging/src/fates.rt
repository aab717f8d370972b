// What becomes of a fragment: the tests of `add_fragment` and `validate_sequence`, in their order.
ghost use Rattle.std.specs.Prelude.{◌≡◌, List, ℕ};
ghost use Rattle.bunch_judging.specs.Fates.{follows, overlaps, ending, weighed, admitted, continued, fate};
ghost use Rattle.bunch_judging.specs.Standings.{held_of};

use crate::{Fate, PartialDiscardCause, PartialResourceLimit, Standing};
use bitio_bits::inner::signed;
use types::continuing::continues;
use types::{PartialSequenceKind, RawBunchHeader};

#[tactic(auto, unfolding(crate::specs::Fates::overlaps))]
pub fn overlaps(held: Option<Standing>, initial: bool) -> bool
    ensures { (words bytes : List ℕ) → result ≡ overlaps (held_of held words bytes) initial }
{
    match held {
        None => false,
        Some(m) => initial & !m.finished,
    }
}

#[tactic(auto, unfolding(crate::specs::Fates::ending))]
fn ending(last: bool, error: bool) -> Fate
    ensures { result ≡ ending last error }
{
    match (last, error) {
        (true, true) => Fate::Falls,
        (true, false) => Fate::Finishes,
        (false, _) => Fate::Joins,
    }
}

#[tactic(auto, unfolding(crate::specs::Fates::weighed))]
fn weighed(unaligned: bool, over: bool, last: bool, error: bool) -> Fate
    ensures { result ≡ weighed unaligned over last error }
{
    if unaligned {
        return Fate::Fails(PartialDiscardCause::Sequence(
            PartialSequenceKind::NonByteAlignedFragment,
        ));
    }
    if over {
        return Fate::Fails(PartialDiscardCause::Resource(PartialResourceLimit::BufferedBits));
    }
    ending(last, error)
}

#[tactic(auto, unfolding(crate::specs::Fates::admitted))]
fn admitted(over: bool, last: bool, error: bool, bits: u64) -> Fate
    ensures { result ≡ admitted over last error bits }
{
    if bits == 0 {
        return ending(last, error);
    }
    weighed(!last & (bits % 8 != 0), over, last, error)
}

fn follows(sequence: u32, reliable: bool, header: RawBunchHeader) -> bool
    ensures { result ≡ follows sequence reliable header }
{
    let next = signed::to_word(header.ch_sequence);
    continues(sequence, reliable as u32, header.b_reliable, next)
}

#[tactic(auto, unfolding(crate::specs::Fates::continued))]
fn continued(over: bool, held: Option<Standing>, header: RawBunchHeader, bits: u64) -> Fate
    ensures { (words bytes : List ℕ) → result ≡ continued over (held_of held words bytes) header bits }
{
    match held {
        Some(m) if !m.finished => {
            if !follows(m.sequence, m.reliable, header) {
                return Fate::Breaks(PartialSequenceKind::MismatchedContinuation);
            }
            admitted(over, header.b_partial_final, header.has_partial_error, bits)
        }
        _ => Fate::Breaks(PartialSequenceKind::MissingInitial),
    }
}

// `full` where the channel holds nothing and every place is taken, `over` where the payload passes the buffered limit.
#[tactic(auto, unfolding(crate::specs::Fates::fate))]
pub fn fate(
    full: bool,
    over: bool,
    held: Option<Standing>,
    header: RawBunchHeader,
    bits: u64,
) -> Fate
    ensures { (words bytes : List ℕ) → result ≡ fate full over (held_of held words bytes) header bits }
{
    if header.b_partial_initial {
        if full {
            return Fate::TurnedAway;
        }
        let error = header.has_partial_error | overlaps(held, true);
        return admitted(over, header.b_partial_final, error, bits);
    }
    continued(over, held, header, bits)
}
