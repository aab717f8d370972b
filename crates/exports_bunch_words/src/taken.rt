// What taking and retiring answer, as words.
ghost use Rattle.std.specs.Prelude.{◌≡◌, List, ℕ, get_or};
ghost use Rattle.bunch_held.specs.Memory.{HeldMemory};
ghost use Rattle.bunch_held.specs.Refusals.{error_paper};
ghost use Rattle.bunch_joining.specs.Taken.{of_taken};
ghost use Rattle.exports_bunch_words.specs.Handed.{handed_words};

use bunch_held::{Accumulator, BunchError};
use bunch_joining::PreservedPartial;
use words::inner::put;
use words::of_header;

pub type HandedWords = [u64; 26];

#[derive(Clone, Copy)]
pub struct Numbers {
    pub number: u64,
    pub returned: u64,
}

pub fn said(e: BunchError) -> Numbers
    ensures { result ≡ record { number = (error_paper e).number; returned = get_or (error_paper e).returns 0 0 } }
{
    match e {
        BunchError::Unsound => Numbers {
            number: 10,
            returned: 0,
        },
        BunchError::PayloadTooLong { count } => Numbers {
            number: 11,
            returned: count,
        },
        BunchError::PayloadShort { count } => Numbers {
            number: 12,
            returned: count,
        },
        BunchError::OutputShort { bytes } => Numbers {
            number: 13,
            returned: bytes,
        },
        BunchError::ListFull { places } => Numbers {
            number: 14,
            returned: places,
        },
    }
}

// The answer, with what is then held.
pub fn of_taken(r: Result<Option<PreservedPartial>, BunchError>, a: Accumulator) -> HandedWords
    ensures { (m : HeldMemory) (output : List ℕ) → result ≡ handed_words (of_taken r a m output) }
{
    let mut w: HandedWords = [0; 26];
    w[2] = a.active as u64;
    w[3] = a.total_buffered_bits;
    match r {
        Ok(Some(message)) => {
            let h = of_header(message.header);
            w[4] = 1;
            put(&mut w, 5, &h);
            w[25] = message.bit_count;
            w
        }
        Ok(None) => w,
        Err(e) => {
            let s = said(e);
            w[0] = s.number;
            w[1] = s.returned;
            w
        }
    }
}
