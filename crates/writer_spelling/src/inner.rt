// Bits in words by value.
pub mod fields;
pub mod words;

// The lowest `count` bits of a word. That none stands above them is `Whole` in the contracts and no ghost field: specs and proofs
// build such a word of two numbers alone.
#[derive(Clone, Copy)]
pub struct Bits {
    pub word: u64,
    pub count: u64,
}
