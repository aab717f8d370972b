// The program's parts: calls that move bytes, the log's bytes, the lines, how a listing ends, and the loop over records.
pub mod input;
pub mod moved;
pub mod outcome;
pub mod output;
pub mod run;
pub mod said;
