// How a fragment is judged, by value: `add_fragment` and `validate_sequence` of vrf-net/src/bunch.rs without the memory.
#![tactic(auto)]

use types::{PartialSequenceKind, RawBunchHeader};

pub mod effects;
pub mod fates;
pub mod headers;
pub mod inner;

// Which limit refused a fragment. Freed room serves later fragments, so the Rust's `Allocation` never occurs.
#[derive(Clone, Copy, Debug, PartialEq, Eq)]
pub enum PartialResourceLimit {
    ActiveStates,
    BufferedBits,
}

// Why a message was displaced.
#[derive(Clone, Copy, Debug, PartialEq, Eq)]
pub enum PartialDiscardCause {
    Sequence(PartialSequenceKind),
    Resource(PartialResourceLimit),
}

// The message that a channel holds, but for its header and its bytes.
#[derive(Clone, Copy)]
pub struct Standing {
    pub sequence: u32,
    pub reliable: bool,
    pub finished: bool,
    pub bits: u64,
}

// What becomes of a fragment and of its channel's message.
#[derive(Clone, Copy)]
pub enum Fate {
    // No place is left for a new message: nothing changes.
    TurnedAway,
    // Out of sequence: the channel's message goes.
    Breaks(PartialSequenceKind),
    // Not aligned, or over the limit: the message that the fragment would join goes.
    Fails(PartialDiscardCause),
    // It joins its message, which stays unfinished,
    Joins,
    // or is finished,
    Finishes,
    // or goes: an error at the final.
    Falls,
}

// The Rust's result but for what was displaced, and by how much its counts rise.
#[derive(Clone, Copy)]
pub struct PartialBunchResult {
    pub header: RawBunchHeader,
    pub should_process: bool,
    pub resource_limit: Option<PartialResourceLimit>,
    pub discarded_bits: u64,
    pub error_kind: Option<PartialSequenceKind>,
    pub overlapping_initial: bool,
    pub errors: u32,
    pub fragments: u32,
    pub completed: u32,
}

// A message that left the accumulator unprocessed, without its bytes: the Rust's `PreservedPartial` and its cause.
#[derive(Clone, Copy)]
pub struct Displaced {
    pub header: RawBunchHeader,
    pub bit_count: u64,
    pub cause: PartialDiscardCause,
}

// What one fragment displaces, in order: the Rust's `displaced`, a `Vec` there. There is no heap, and there are never more than two.
#[derive(Clone, Copy)]
pub enum Displacement {
    Nothing,
    One(Displaced),
    Two { first: Displaced, second: Displaced },
}

// What the memory has to do.
#[derive(Clone, Copy)]
pub struct Effect {
    // What is shown of the displaced messages' bytes, the held message's before the payload's.
    pub shows_held: bool,
    pub shows_payload: bool,
    // A message is held afterwards: a new one or the same, with the payload, and finished or not.
    pub stays: bool,
    pub anew: bool,
    pub finished: bool,
}
