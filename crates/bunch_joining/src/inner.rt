// The accumulator's calls past the test of the memory.
pub mod adding;
pub mod taking;
