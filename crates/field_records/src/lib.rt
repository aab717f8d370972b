// The record walks into a lent list of field records: what vrf-net/src/field.rs hands to its sink, in order.
#![tactic(auto)]

pub mod inner;
pub mod walks;

// Which records a walk reads, and what becomes of the bits after a RepLayout's end: skipped, or retained for the class net
// cache.
#[derive(Clone, Copy, Debug, PartialEq, Eq)]
pub enum Stream {
    RepLayout,
    RepLayoutContentBlock,
    ClassNetCache(u32),
}
