// Whether a fragment continues what is in flight on its channel: the Rust's `validate_continuation`. The packet reader and the
// accumulator both ask it.
ghost use Rattle.std.specs.Prelude.{◌≡◌};
ghost use Rattle.types.specs.Continuing.{following, continues};

// No sequence follows it.
pub const LAST_SEQUENCE: u32 = 2147483647;

#[tactic(auto, unfolding(crate::specs::Continuing::following))]
pub fn following(word: u32) -> u32
    ensures { result ≡ following word }
{
    word.wrapping_add(1)
}

pub fn continues(held_sequence: u32, held_reliable: u32, reliable: bool, sequence: u32) -> bool
    ensures { result ≡ continues (held_sequence, held_reliable) reliable sequence }
{
    let next = following(held_sequence);
    ((held_reliable != 0) == reliable)
        & (((held_sequence != LAST_SEQUENCE) & (sequence == next))
            | (!reliable & (sequence == held_sequence)))
}
