// What a fate asks of the memory.
ghost use Rattle.std.specs.Prelude.{◌≡◌};
ghost use Rattle.bunch_judging.specs.Effects.{goes, stays, effect_of};

use crate::{Effect, Fate};

fn goes(shows_held: bool, shows_payload: bool) -> Effect
    ensures { result ≡ goes shows_held shows_payload }
{
    Effect {
        shows_held,
        shows_payload,
        stays: false,
        anew: false,
        finished: false,
    }
}

fn stays(anew: bool, finished: bool) -> Effect
    ensures { result ≡ stays anew finished }
{
    Effect {
        shows_held: anew,
        shows_payload: false,
        stays: true,
        anew,
        finished,
    }
}

// `zero` where the fragment has no bits.
#[tactic(auto, unfolding(crate::specs::Effects::effect_of))]
pub fn effect(fate: Fate, initial: bool, zero: bool) -> Effect
    ensures { result ≡ effect_of fate initial zero }
{
    match fate {
        Fate::TurnedAway => goes(false, false),
        Fate::Breaks(_) | Fate::Fails(_) => goes(true, false),
        Fate::Joins => stays(initial, false),
        Fate::Finishes => stays(initial, true),
        Fate::Falls => goes(initial | !zero, !zero),
    }
}
