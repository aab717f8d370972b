// The accumulator's public calls: vrf-net/src/bunch.rs's `PartialBunchAccumulator` over lent memory. `opening` opens one and tells its
// counts, `calls` has those on a channel, `drains` the one on all.
#![tactic(auto)]

pub mod calls;
pub mod drains;
pub mod inner;
pub mod opening;

// Why opening refused: 9, a limit or the lent room is unfit.
#[derive(Clone, Copy, Debug, PartialEq, Eq)]
pub struct Unfit;

// A message in the lent list: its channel, how many bits, and its header's twenty words.
pub type Listed = [u64; 22];
