// The payload copy: the Rust's `copy_bits_to`.
ghost use Rattle.std.specs.Prelude.{◌≡◌, length};
ghost use Rattle.bitio_window.specs.Places.{packet_bit};
ghost use Rattle.bitio_window.specs.Copies.{copy_bits, copy_leaves};
ghost use Rattle.bitio_window.specs.Answers.{answer};

use crate::windows;
use bitio_window::inner::copy;
use bitio_window::{BitError, Window, inner};

// The copy's refusals, in document 01's order; with none, the window past its bits.
fn judge(bytes: &[u8], w: &mut Window, room: usize, count: u64) -> Result<(), BitError>
    ensures { answer result w.new ≡ copy_bits room count bytes.now w.old }
{
    windows::test(bytes, *w)?;
    if (room as u64) < count.div_ceil(8) {
        return Err(BitError::InvalidBitLength {
            requested: count,
            available: 8 * room as u64,
        });
    }
    inner::skip(w, count)
}

pub fn copy_bits_to(
    bytes: &[u8],
    w: &mut Window,
    target: &mut [u8],
    count: u64,
) -> Result<(), BitError>
    ensures answers { answer result w.new ≡ copy_bits (length target.old) count bytes.now w.old }
    ensures leaves { target.new ≡ copy_leaves (answer result w.new) target.old bytes.now (packet_bit w.old).0 count }
{
    let from = *w;
    judge(bytes, w, target.len(), count)?;
    copy::copy_bits(bytes, from.packet_bit(), count, target);
    Ok(())
}
