// Edits of the accumulator's sound memory, where a channel's slot was found: a message goes, changes or starts, by a fragment's fate.
#![tactic(auto)]

pub mod inner;
