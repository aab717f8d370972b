// The answer to a fragment, but for what was displaced: the Rust's `PartialBunchResult`.
ghost use Rattle.std.specs.Prelude.{◌≡◌, List, ℕ, ◌≤◌};
ghost use Rattle.types.specs.Types.{longest_payload, most_buffered_bits};
ghost use Rattle.bunch_judging.specs.Results.{is_overlapping, cause_kind, limit_of, refused, turned_away, broken, failed, accepted};
ghost use Rattle.bunch_judging.specs.Results.{result_of};
ghost use Rattle.bunch_judging.specs.Standings.{held_of, standing_bits, displaced_bits};
ghost use Rattle.bunch_judging.specs.Held.{fragment_of};

use crate::fates::overlaps;
use crate::headers::{after_test, erring, flagged};
use crate::{Fate, PartialBunchResult, PartialDiscardCause, PartialResourceLimit, Standing};
use types::{PartialSequenceKind, RawBunchHeader};

fn bits_of(held: Option<Standing>) -> u64
    ensures { result ≡ standing_bits held }
{
    match held {
        None => 0,
        Some(m) => m.bits,
    }
}

#[tactic(auto, unfolding(crate::specs::Standings::displaced_bits))]
fn displaced_bits(fate: Fate, initial: bool, held: u64, bits: u64) -> u64
    requires { (held ≤ most_buffered_bits) × (bits ≤ longest_payload) }
    ensures { result ≡ displaced_bits fate initial held bits }
{
    match fate {
        Fate::TurnedAway => 0,
        Fate::Breaks(_) | Fate::Fails(_) => held,
        Fate::Joins | Fate::Finishes => if initial { held } else { 0 },
        Fate::Falls => if initial | (bits != 0) {
            held + bits
        } else {
            0
        },
    }
}

fn is_overlapping(kind: Option<PartialSequenceKind>) -> bool
    ensures { result ≡ is_overlapping kind }
{
    kind == Some(PartialSequenceKind::OverlappingInitial)
}

fn kind_of(cause: PartialDiscardCause) -> Option<PartialSequenceKind>
    ensures { result ≡ cause_kind cause }
{
    match cause {
        PartialDiscardCause::Sequence(kind) => Some(kind),
        PartialDiscardCause::Resource(_) => None,
    }
}

fn limit_of(cause: PartialDiscardCause) -> Option<PartialResourceLimit>
    ensures { result ≡ limit_of cause }
{
    match cause {
        PartialDiscardCause::Sequence(_) => None,
        PartialDiscardCause::Resource(limit) => Some(limit),
    }
}

fn refused(
    header: RawBunchHeader,
    limit: Option<PartialResourceLimit>,
    kind: Option<PartialSequenceKind>,
    overlapping: bool,
    discarded: u64,
    errors: u32,
) -> PartialBunchResult
    ensures { result ≡ refused header limit kind overlapping discarded errors }
{
    PartialBunchResult {
        header,
        should_process: false,
        resource_limit: limit,
        discarded_bits: discarded,
        error_kind: kind,
        overlapping_initial: overlapping,
        errors,
        fragments: 0,
        completed: 0,
    }
}

fn turned_away(header: RawBunchHeader, bits: u64) -> PartialBunchResult
    ensures { result ≡ turned_away header bits }
{
    let kind = header.partial_error_kind;
    let limit = Some(PartialResourceLimit::ActiveStates);
    let flagged = erring(kind, header);
    refused(flagged, limit, None, false, bits, 1)
}

fn broken(kind: PartialSequenceKind, header: RawBunchHeader, discarded: u64) -> PartialBunchResult
    ensures { result ≡ broken kind header discarded }
{
    let met = Some(kind);
    let flagged = erring(met, header);
    let overlapping = is_overlapping(met);
    refused(flagged, None, met, overlapping, discarded, 1)
}

fn failed(
    cause: PartialDiscardCause,
    header: RawBunchHeader,
    discarded: u64,
    errors: u32,
) -> PartialBunchResult
    ensures { result ≡ failed cause header discarded errors }
{
    let limit = limit_of(cause);
    let refusal = kind_of(cause);
    let own = header.partial_error_kind;
    let flagged = erring(own, header);
    let overlapping = is_overlapping(own);
    refused(flagged, limit, refusal, overlapping, discarded, errors)
}

fn accepted(
    h: RawBunchHeader,
    zero: bool,
    done: bool,
    discarded: u64,
    errors: u32,
) -> PartialBunchResult
    ensures { result ≡ accepted h zero done discarded errors }
{
    let kind = h.partial_error_kind;
    let header = flagged(h.has_partial_error, kind, h.is_partial_completed | done, h);
    let overlapping = is_overlapping(kind);
    let told = if zero { None } else { kind };
    PartialBunchResult {
        header,
        should_process: done,
        resource_limit: None,
        discarded_bits: discarded,
        error_kind: told,
        overlapping_initial: overlapping,
        errors,
        fragments: 1,
        completed: done as u32,
    }
}

// The limits keep every sum small.
pub fn result(
    fate: Fate,
    held: Option<Standing>,
    header: RawBunchHeader,
    bits: u64,
) -> PartialBunchResult
    requires { (standing_bits held ≤ most_buffered_bits) × (bits ≤ longest_payload) }
    ensures { (words bytes payload : List ℕ) → result ≡ result_of fate (held_of held words bytes) (fragment_of header bits payload) }
{
    let gone = displaced_bits(fate, header.b_partial_initial, bits_of(held), bits);
    let errors = overlaps(held, header.b_partial_initial) as u32;
    let h = after_test(held, header);
    match fate {
        Fate::TurnedAway => turned_away(header, bits),
        Fate::Breaks(kind) => broken(kind, header, gone + bits),
        Fate::Fails(cause) => failed(cause, h, gone + bits, errors + 1),
        Fate::Finishes => accepted(h, bits == 0, true, gone, errors),
        Fate::Joins | Fate::Falls => accepted(h, bits == 0, false, gone, errors),
    }
}
