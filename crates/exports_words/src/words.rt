// Answers as words.
ghost use Rattle.std.specs.Prelude.{◌≡◌, [], ◌∷◌, ◌++◌, length};
ghost use Rattle.bitio_window.specs.declared.Window.{Window};
ghost use Rattle.bitio_window.specs.Refusals.{paper};
ghost use Rattle.bitio_window.specs.Answers.{answer, outcome};
ghost use Rattle.bitio_window.specs.Windows.{window_at};
ghost use Rattle.exports_words.specs.Words.{seven, refusal_words, words, opened_words, count_words, number_left};
ghost use Rattle.field_walking.specs.Answers.{field_paper, stop_answer};
ghost use Rattle.exports_words.specs.Walks.{stop_words};

use crate::values::Value;
use bitio_window::{BitError, Decoded, PacketBit, Window, WindowBit};
use field_walking::{FieldError, Stop, Walk};

pub type Words = [u64; 7];

pub type WalkWords = [u64; 8];

pub fn window_at(start: u64, position: u64, length: u64) -> Window
    ensures { result ≡ window_at start position length }
{
    Window {
        start: PacketBit(start),
        position: WindowBit(position),
        length,
    }
}

// C reads an answer as numbers: the refusal's, or 0, three more, and the window.
fn seven(number: u64, values: [u64; 3], w: Window) -> Words
    ensures { result ≡ seven number values w }
{
    let [a, b, c] = values;
    [number, a, b, c, w.start.0, w.position.0, w.length]
}

fn refused(e: BitError, w: Window) -> Words
    ensures { result ≡ refusal_words (paper e) w }
{
    match e {
        BitError::Eof {
            position,
            length,
            requested,
        } => seven(1, [position.at.0, length, requested], w),
        BitError::MalformedIntPacked { position } => seven(2, [position.at.0, 0, 0], w),
        BitError::IntPackedOverflow { position } => seven(3, [position.at.0, 0, 0], w),
        BitError::InvalidSerializedIntMax { max } => seven(4, [max as u64, 0, 0], w),
        BitError::InvalidBitLength {
            requested,
            available,
        } => seven(5, [requested, available, 0], w),
        BitError::InvalidWidth { width } => seven(6, [width as u64, 0, 0], w),
        BitError::DataTooLong { length } => seven(7, [length, 0, 0], w),
    }
}

// What a read, a copy or a move answers, with the window where it left the reader.
#[tactic(auto, unfolding(crate::specs::Words::words))]
pub fn of_read<T: Value>(read: Result<T, BitError>, w: Window) -> Words
    ensures { result ≡ words T.words (answer read w) }
{
    match read {
        Ok(value) => seven(0, value.words(), w),
        Err(e) => refused(e, w),
    }
}

#[tactic(auto, unfolding(crate::specs::Words::opened_words))]
pub fn of_opened(opened: Result<Window, BitError>) -> Words
    ensures { result ≡ opened_words (outcome opened) }
{
    match opened {
        Ok(w) => seven(0, [0, 0, 0], w),
        Err(e) => refused(e, window_at(0, 0, 0)),
    }
}

#[tactic(auto, unfolding(crate::specs::Words::count_words))]
pub fn of_count(w: Window, count: Result<u64, BitError>) -> Words
    ensures { result ≡ count_words w (outcome count) }
{
    match count {
        Ok(n) => seven(0, [n, 0, 0], w),
        Err(e) => refused(e, w),
    }
}

// A float goes out beside the words: stored where there is a number.
pub fn store_number<N: Copy, B: Copy>(read: Result<Decoded<N, B>, BitError>, value: &mut N)
    ensures { value.new ≡ number_left value.old read }
{
    if let Ok(Decoded::Number(number)) = read {
        *value = number;
    }
}

#[tactic(auto, unfolding(bitio_window::specs::Refusals::list_full, bitio_window::specs::Refusals::unresolved))]
fn refused_walk(e: FieldError, w: Window) -> Words
    ensures { result ≡ refusal_words (field_paper e) w }
{
    match e {
        FieldError::Bits(e) => refused(e, w),
        FieldError::RecordListFull { position } => seven(14, [position.at.0, 0, 0], w),
        FieldError::UnresolvedFunctionCount => seven(15, [0, 0, 0], w),
    }
}

#[tactic(auto, unfolding(crate::specs::Words::words))]
fn of_stop(stop: Result<Stop, FieldError>, w: Window) -> Words
    ensures { result ≡ words stop_words (stop_answer stop w) }
{
    match stop {
        Ok(Stop::Ended) => seven(0, [0, 0, 0], w),
        Ok(Stop::ClassNetCacheTail(n)) => seven(0, [1, n, 0], w),
        Ok(Stop::Abandoned(n)) => seven(0, [2, n, 0], w),
        Err(e) => refused_walk(e, w),
    }
}

fn with_count(words: Words, count: u64) -> WalkWords
    ensures { result ≡ words ++ (count ∷ []) }
{
    let [number, a, b, c, start, position, length] = words;
    [number, a, b, c, start, position, length, count]
}

// A walk's answer, with the window where it left the reader.
pub fn of_walk(walk: Walk, w: Window) -> WalkWords
    ensures { result ≡ words stop_words (stop_answer walk.stop w) ++ (walk.count ∷ []) }
{
    with_count(of_stop(walk.stop, w), walk.count)
}
