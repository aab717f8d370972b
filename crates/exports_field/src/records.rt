// The record walks into a lent list of field records, for C and Rust: one call, the stream a word.
ghost use Rattle.std.specs.Prelude.{◌≡◌, []};
ghost use Rattle.bitio_window.specs.Windows.{window_at};
ghost use Rattle.exports_words.specs.Walks.{walk_words};
ghost use Rattle.exports_field.specs.Streams.{no_walk, listed_by};

use bitio::windows;
use bitio_window::Window;
use exports_words::words;
use exports_words::words::WalkWords;
use field_records::walks;
use field_walking::{FieldRecord, Record, Walk};

// The words of a word that says no stream: 255 with it, after what a window's tests refuse.
fn unlisted(bytes: &[u8], w: Window, word: u32) -> WalkWords
    ensures { result ≡ walk_words (no_walk word bytes.now [] w) }
{
    match windows::test(bytes, w) {
        Ok(()) => [
            255,
            u64::from(word),
            0,
            0,
            w.start.0,
            w.position.0,
            w.length,
            0,
        ],
        Err(e) => words::of_walk(
            Walk {
                stop: Err(e.into()),
                count: 0,
            },
            w,
        ),
    }
}

#[unsafe(no_mangle)]
pub extern "C" fn gritwheel_list_records(
    bytes: &[u8],
    start: u64,
    position: u64,
    length: u64,
    stream: u32,
    function_count: u32,
    records: &mut [FieldRecord],
    numbers: &mut [Record],
    out: &mut WalkWords,
)
    ensures { let listed = listed_by stream function_count bytes.now records.old numbers.old
        (window_at start position length) in
        (out.new ≡ walk_words listed.walked)
        × (records.new ≡ listed.records)
        × (numbers.new ≡ listed.walked.places) }
{
    let mut w = words::window_at(start, position, length);
    let walk = match stream {
        0 => walks::parse_rep_layout(bytes, &mut w, records, numbers),
        1 => walks::parse_rep_layout_content_block(bytes, &mut w, records, numbers),
        2 => walks::parse_class_net_cache(bytes, &mut w, function_count, records, numbers),
        _ => {
            *out = unlisted(bytes, w, stream);
            return;
        }
    };
    *out = words::of_walk(walk, w);
}
