// The record walks for C and Rust. Each writes a place of four numbers for each record, and the eight words of its answer.
ghost use Rattle.std.specs.Prelude.{◌≡◌, true, false};
ghost use Rattle.bitio_window.specs.Windows.{window_at};
ghost use Rattle.field.specs.Walks.{parse_rep_layout, parse_class_net_cache};
ghost use Rattle.exports_words.specs.Walks.{walk_words};

use exports_words::words;
use exports_words::words::WalkWords;
use field::walks;
use field_walking::Record;

#[unsafe(no_mangle)]
pub extern "C" fn gritwheel_parse_rep_layout(
    bytes: &[u8],
    start: u64,
    position: u64,
    length: u64,
    records: &mut [Record],
    out: &mut WalkWords,
)
    ensures { let walked = parse_rep_layout false bytes.now records.old (window_at start position length) in
        (out.new ≡ walk_words walked) × (records.new ≡ walked.places) }
{
    let mut w = words::window_at(start, position, length);
    let walk = walks::parse_rep_layout(bytes, &mut w, records);
    *out = words::of_walk(walk, w);
}

#[unsafe(no_mangle)]
pub extern "C" fn gritwheel_parse_rep_layout_content_block(
    bytes: &[u8],
    start: u64,
    position: u64,
    length: u64,
    records: &mut [Record],
    out: &mut WalkWords,
)
    ensures { let walked = parse_rep_layout true bytes.now records.old (window_at start position length) in
        (out.new ≡ walk_words walked) × (records.new ≡ walked.places) }
{
    let mut w = words::window_at(start, position, length);
    let walk = walks::parse_rep_layout_content_block(bytes, &mut w, records);
    *out = words::of_walk(walk, w);
}

#[unsafe(no_mangle)]
pub extern "C" fn gritwheel_parse_class_net_cache(
    bytes: &[u8],
    start: u64,
    position: u64,
    length: u64,
    function_count: u32,
    records: &mut [Record],
    out: &mut WalkWords,
)
    ensures { let walked = parse_class_net_cache function_count bytes.now records.old (window_at start position length) in
        (out.new ≡ walk_words walked) × (records.new ≡ walked.places) }
{
    let mut w = words::window_at(start, position, length);
    let walk = walks::parse_class_net_cache(bytes, &mut w, function_count, records);
    *out = words::of_walk(walk, w);
}
