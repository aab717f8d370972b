// A fragment's header, with the flags that judging it sets.
ghost use Rattle.std.specs.Prelude.{◌≡◌, List, ℕ};
ghost use Rattle.bunch_judging.specs.Headers.{flagged, erring, after_test};
ghost use Rattle.bunch_judging.specs.Standings.{held_of};

use crate::Standing;
use crate::fates::overlaps;
use types::{PartialSequenceKind, RawBunchHeader};

#[tactic(auto, unfolding(crate::specs::Headers::flagged))]
pub fn flagged(
    error: bool,
    kind: Option<PartialSequenceKind>,
    completed: bool,
    h: RawBunchHeader,
) -> RawBunchHeader
    ensures { result ≡ flagged error kind completed h }
{
    RawBunchHeader {
        has_partial_error: error,
        partial_error_kind: kind,
        is_partial_completed: completed,
        ..h
    }
}

pub fn erring(kind: Option<PartialSequenceKind>, h: RawBunchHeader) -> RawBunchHeader
    ensures { result ≡ erring kind h }
{
    flagged(true, kind, h.is_partial_completed, h)
}

#[tactic(auto, unfolding(crate::specs::Headers::after_test))]
pub fn after_test(held: Option<Standing>, h: RawBunchHeader) -> RawBunchHeader
    ensures { (words bytes : List ℕ) → result ≡ after_test (held_of held words bytes) h }
{
    if overlaps(held, h.b_partial_initial) {
        return erring(Some(PartialSequenceKind::OverlappingInitial), h);
    }
    h
}
