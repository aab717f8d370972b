// The copy through a reader.
ghost use Rattle.std.specs.Prelude.{◌≡◌, ◌+◌, length};
ghost use Rattle.bitio_window.specs.Copies.{copy_bits, copy_leaves};
ghost use Rattle.bitio_window.specs.Windows.{window_at};
ghost use Rattle.exports_words.specs.Words.{words, none};

use bitio_reader::plain;
use exports_words::words;
use exports_words::words::Words;

#[unsafe(no_mangle)]
pub extern "C" fn gritwheel_reader_copy_bits_to(
    bytes: &[u8],
    start: u64,
    position: u64,
    size: u64,
    target: &mut [u8],
    count: u64,
    out: &mut Words,
)
    ensures { let copy = copy_bits (length target.old) count bytes.now (window_at start position size) in
        (out.new ≡ words none copy)
        × (target.new ≡ copy_leaves copy target.old bytes.now (start + position) count) }
{
    let mut w = words::window_at(start, position, size);
    let copy = plain::copy_bits_to(bytes, &mut w, target, count);
    *out = words::of_read(copy, w);
}
