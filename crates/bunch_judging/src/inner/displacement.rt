// What a fragment displaces, without its bytes. `words` are those of the held message's header.
ghost use Rattle.std.specs.Prelude.{List, [], ◌∷◌, ◌++◌, ◌≡◌, ℕ, ◌≤◌};
ghost use Rattle.types.specs.Types.{longest_payload, most_buffered_bits};
ghost use Rattle.bunch_judging.specs.Messages.{replaced_by, joined_by, base, joined_to, displaced_by, fallen, displaced};
ghost use Rattle.bunch_judging.specs.Standings.{held_of, standing_bits, value_of, displaced_values, of_displacement};
ghost use Rattle.bunch_judging.specs.Held.{message_of, fragment_of, displaced_of};

use crate::headers::after_test;
use crate::{Displaced, Displacement, Fate, PartialDiscardCause, Standing};
use types::{PartialSequenceKind, RawBunchHeader};
use words::{HeaderWords, header_of};

fn replaced_by(initial: bool, held: Option<Standing>) -> Option<Standing>
    ensures { (words bytes : List ℕ) → held_of result words bytes ≡ replaced_by initial (held_of held words bytes) }
{
    if initial { held } else { None }
}

fn joined_by(initial: bool, held: Option<Standing>) -> Option<Standing>
    ensures { ((words bytes : List ℕ) → held_of result words bytes ≡ joined_by initial (held_of held words bytes))
        × (standing_bits result ≤ standing_bits held) }
{
    if initial { None } else { held }
}

fn message(words: HeaderWords, bits: u64, cause: PartialDiscardCause) -> Displaced
    ensures { (bytes : List ℕ) → result ≡ value_of (displaced_of (message_of words bits bytes) cause) }
{
    let header = header_of(words);
    Displaced {
        header,
        bit_count: bits,
        cause,
    }
}

fn displaced_by(
    cause: PartialDiscardCause,
    held: Option<Standing>,
    words: HeaderWords,
) -> Displacement
    ensures { (bytes : List ℕ) → of_displacement result ≡ displaced_values (displaced_by cause (held_of held words bytes)) }
{
    match held {
        None => Displacement::Nothing,
        Some(m) => Displacement::One(message(words, m.bits, cause)),
    }
}

// With another after it.
fn displaced_before(
    cause: PartialDiscardCause,
    held: Option<Standing>,
    words: HeaderWords,
    last: Displaced,
) -> Displacement
    ensures { (bytes : List ℕ) → of_displacement result ≡ displaced_values (displaced_by cause (held_of held words bytes)) ++ (last ∷ []) }
{
    match held {
        None => Displacement::One(last),
        Some(m) => Displacement::Two {
            first: message(words, m.bits, cause),
            second: last,
        },
    }
}

fn joined(
    held: Option<Standing>,
    words: HeaderWords,
    header: RawBunchHeader,
    bits: u64,
    cause: PartialDiscardCause,
) -> Displaced
    requires { (standing_bits held ≤ most_buffered_bits) × (bits ≤ longest_payload) }
    ensures { (bytes payload : List ℕ)
        → result ≡ value_of (displaced_of
        (joined_to (base (held_of held words bytes) header).message (fragment_of header bits payload)) cause) }
{
    match held {
        None => Displaced {
            header,
            bit_count: bits,
            cause,
        },
        Some(m) => message(words, m.bits + bits, cause),
    }
}

fn fallen(
    held: Option<Standing>,
    words: HeaderWords,
    header: RawBunchHeader,
    bits: u64,
) -> Displaced
    requires { (standing_bits held ≤ most_buffered_bits) × (bits ≤ longest_payload) }
    ensures { (bytes payload : List ℕ) → result ≡ value_of (fallen (held_of held words bytes) (fragment_of header bits payload)) }
{
    let h = after_test(held, header);
    let kind = h
        .partial_error_kind
        .unwrap_or(PartialSequenceKind::OverlappingInitial);
    let cause = PartialDiscardCause::Sequence(kind);
    let joins = joined_by(header.b_partial_initial, held);
    joined(joins, words, h, bits, cause)
}

pub fn displaced(
    fate: Fate,
    held: Option<Standing>,
    words: HeaderWords,
    header: RawBunchHeader,
    bits: u64,
) -> Displacement
    requires { (standing_bits held ≤ most_buffered_bits) × (bits ≤ longest_payload) }
    ensures { (bytes payload : List ℕ)
        → of_displacement result ≡ displaced_values (displaced fate (held_of held words bytes) (fragment_of header bits payload)) }
{
    let overlapping = PartialDiscardCause::Sequence(PartialSequenceKind::OverlappingInitial);
    let replaced = replaced_by(header.b_partial_initial, held);
    match fate {
        Fate::TurnedAway => Displacement::Nothing,
        Fate::Breaks(kind) => displaced_by(PartialDiscardCause::Sequence(kind), held, words),
        Fate::Fails(cause) => {
            if header.b_partial_initial {
                return displaced_by(overlapping, held, words);
            }
            displaced_by(cause, held, words)
        }
        Fate::Joins | Fate::Finishes => displaced_by(overlapping, replaced, words),
        Fate::Falls => {
            if bits == 0 {
                return displaced_by(overlapping, replaced, words);
            }
            displaced_before(
                overlapping,
                replaced,
                words,
                fallen(held, words, header, bits),
            )
        }
    }
}
