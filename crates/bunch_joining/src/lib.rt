// A fragment is added and a message handed out, on memory that was tested: a program that tested it once can go on with what each
// call leaves.
#![tactic(auto)]

use bunch_judging::{Displacement, PartialBunchResult};
use types::RawBunchHeader;

pub mod inner;

// What comes of a fragment: the Rust's result. The displaced messages' bytes are in the output, first displaced first.
#[derive(Clone, Copy)]
pub struct Judged {
    pub result: PartialBunchResult,
    pub displaced: Displacement,
}

// A message that is taken or retired; its bytes are in the output.
#[derive(Clone, Copy)]
pub struct PreservedPartial {
    pub header: RawBunchHeader,
    pub bit_count: u64,
}
