// The tables' edits, over columns that have been tested. A table's two or three columns come one by one: the reader's five are one value
// above (`ReaderColumns`), and of a struct inside another a caller doesn't know with what its slices end.
pub mod partials;
pub mod retire;
pub mod sequences;
