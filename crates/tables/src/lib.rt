// The lent tables that stand for the Rust's hash maps: columns whose first `live` places count, by ascending channel. There is no heap,
// and C lends each column at a length of its own: so how many places count stands beside it.
#![tactic(auto)]

pub mod inner;

// As the standard library's binary search tells it: the place of a channel, or the place where it would go.
pub type Slot = Result<usize, usize>;
