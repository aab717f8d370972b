// A message's edits, and over them what a fragment does.
pub mod fragments;
pub mod messages;
