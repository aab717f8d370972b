// What adding a fragment answers, as words.
ghost use Rattle.std.specs.Prelude.{◌≡◌, List, ◌∷◌, ◌++◌, ℕ};
ghost use Rattle.bunch_held.specs.Memory.{HeldMemory};
ghost use Rattle.bunch_joining.specs.Added.{told_by, of_added};
ghost use Rattle.exports_bunch_words.specs.Fragments.{limit_word, cause_word, cause_value, result_words, displaced_words, fragment_words};

use crate::taken::{Numbers, said};
use bunch_held::{Accumulator, BunchError};
use bunch_joining::Judged;
use bunch_judging::{
    Displaced, Displacement, PartialBunchResult, PartialDiscardCause, PartialResourceLimit,
};
use words::inner::put;
use words::{kind_word, of_header};

pub type FragmentWords = [u64; 79];

pub type ResultWords = [u64; 28];

pub type DisplacedWords = [u64; 23];

fn limit(l: Option<PartialResourceLimit>) -> u64
    ensures { result ≡ limit_word l }
{
    match l {
        None => 0,
        Some(PartialResourceLimit::ActiveStates) => 1,
        Some(PartialResourceLimit::BufferedBits) => 2,
    }
}

fn cause_word(c: PartialDiscardCause) -> u64
    ensures { result ≡ cause_word c }
{
    match c {
        PartialDiscardCause::Sequence(_) => 0,
        PartialDiscardCause::Resource(_) => 1,
    }
}

fn cause_value(c: PartialDiscardCause) -> u64
    ensures { result ≡ cause_value c }
{
    match c {
        PartialDiscardCause::Sequence(k) => kind_word(Some(k)),
        PartialDiscardCause::Resource(l) => limit(Some(l)),
    }
}

pub fn of_result(r: PartialBunchResult) -> ResultWords
    ensures { result ≡ result_words r }
{
    let errors = r.errors as u64;
    let fragments = r.fragments as u64;
    let completed = r.completed as u64;
    let header = r.header;
    let resource_limit = r.resource_limit;
    let error_kind = r.error_kind;
    let h = of_header(header);
    let reached = limit(resource_limit);
    let wrong = kind_word(error_kind);
    let rest: [u64; 8] = [
        r.should_process as u64,
        reached,
        r.discarded_bits,
        wrong,
        r.overlapping_initial as u64,
        errors,
        fragments,
        completed,
    ];
    let mut w: ResultWords = [0; 28];
    put(&mut w, 0, &h);
    put(&mut w, 20, &rest);
    w
}

fn of_displaced(d: Displaced) -> DisplacedWords
    ensures { result ≡ displaced_words (told_by d) }
{
    let header = d.header;
    let cause = d.cause;
    let h = of_header(header);
    let which = cause_word(cause);
    let value = cause_value(cause);
    let mut w: DisplacedWords = [0; 23];
    put(&mut w, 0, &h);
    w[20] = d.bit_count;
    w[21] = which;
    w[22] = value;
    w
}

// One after the other: what is said, the counts, the result, how many are displaced, and they. The last is put first: what stands
// before a part is then known word by word.
fn joined(
    s: Numbers,
    a: Accumulator,
    r: ResultWords,
    n: u64,
    d: DisplacedWords,
    e: DisplacedWords,
) -> FragmentWords
    ensures { result ≡ s.number ∷ s.returned ∷ a.active ∷ a.total_buffered_bits ∷ (r ++ (n ∷ (d ++ e))) }
{
    let mut w: FragmentWords = [0; 79];
    put(&mut w, 56, &e);
    put(&mut w, 33, &d);
    w[32] = n;
    put(&mut w, 4, &r);
    w[3] = a.total_buffered_bits;
    w[2] = a.active as u64;
    w[1] = s.returned;
    w[0] = s.number;
    w
}

const NOTHING_SAID: Numbers = Numbers {
    number: 0,
    returned: 0,
};

// The answer, with what is then held.
pub fn of_added(r: Result<Judged, BunchError>, a: Accumulator) -> FragmentWords
    ensures { (m : HeldMemory) (output : List ℕ) → result ≡ fragment_words (of_added r a m output) }
{
    let none: DisplacedWords = [0; 23];
    match r {
        Ok(judged) => {
            let w = of_result(judged.result);
            let s = NOTHING_SAID;
            match judged.displaced {
                Displacement::Nothing => joined(s, a, w, 0, none, none),
                Displacement::One(d) => joined(s, a, w, 1, of_displaced(d), none),
                Displacement::Two { first, second } => {
                    joined(s, a, w, 2, of_displaced(first), of_displaced(second))
                }
            }
        }
        Err(e) => {
            let w: ResultWords = [0; 28];
            joined(said(e), a, w, 0, none, none)
        }
    }
}
