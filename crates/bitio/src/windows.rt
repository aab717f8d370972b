// Windows over a byte slice: the Rust's `new` to `skip_remaining` where no bit is looked at, and the tests before every read.
ghost use Rattle.std.specs.Prelude.{◌≡◌, ◌*◌, ◌≤◌, ◌<◌, length, IfOk, IfErr};
ghost use Rattle.bitio_window.specs.Refusals.{paper, too_long};
ghost use Rattle.bitio_window.specs.Reads.{largest_data, sound};
ghost use Rattle.bitio_window.specs.Windows.{front, new_window, with_bit_len, bits_remaining, at_end};
ghost use Rattle.bitio_window.specs.Windows.{sub_reader, skip_bits, skip_remaining};
ghost use Rattle.bitio_window.specs.Answers.{answer, outcome};

use bitio_window::{BitError, MAX_DATA_BYTES, PacketBit, Window, WindowBit, inner};

// How many bits the data has, or 7.
fn data_bits(bytes: &[u8]) -> Result<u64, BitError>
    ensures there { IfOk result (λ bits. (bits ≡ 8 * length bytes.now) × (length bytes.now ≤ largest_data)) }
    ensures long { IfErr result (λ e. (largest_data < length bytes.now) × (paper e ≡ too_long (length bytes.now))) }
{
    let size = bytes.len();
    if size > MAX_DATA_BYTES {
        return Err(BitError::DataTooLong {
            length: size as u64,
        });
    }
    Ok(8 * size as u64)
}

// 7, then 5 for a window past its data, then 5 for a cursor past its window.
pub fn test(bytes: &[u8], w: Window) -> Result<(), BitError>
    ensures { answer result w ≡ sound bytes.now w }
{
    let available = data_bits(bytes)?.saturating_sub(w.start.0);
    if available < w.length {
        return Err(BitError::InvalidBitLength {
            requested: w.length,
            available,
        });
    }
    if w.length < w.position.0 {
        return Err(BitError::InvalidBitLength {
            requested: w.position.0,
            available: w.length,
        });
    }
    Ok(())
}

fn front(length: u64) -> Window
    ensures { result ≡ front length }
{
    Window {
        start: PacketBit(0),
        position: WindowBit(0),
        length,
    }
}

pub fn new(bytes: &[u8]) -> Result<Window, BitError>
    ensures { outcome result ≡ new_window bytes.now }
{
    Ok(front(data_bits(bytes)?))
}

pub fn with_bit_len(bytes: &[u8], bit_len: u64) -> Result<Window, BitError>
    ensures { outcome result ≡ with_bit_len bytes.now bit_len }
{
    let available = data_bits(bytes)?;
    if available < bit_len {
        return Err(BitError::InvalidBitLength {
            requested: bit_len,
            available,
        });
    }
    Ok(front(bit_len))
}

pub fn position(w: Window) -> u64
    ensures { result ≡ w.position.0 }
{
    w.position.0
}

pub fn len_bits(w: Window) -> u64
    ensures { result ≡ w.length }
{
    w.length
}

pub fn bits_remaining(w: Window) -> Result<u64, BitError>
    ensures { outcome result ≡ bits_remaining w }
{
    if w.length < w.position.0 {
        return Err(BitError::InvalidBitLength {
            requested: w.position.0,
            available: w.length,
        });
    }
    Ok(w.length - w.position.0)
}

pub fn at_end(w: Window) -> bool
    ensures { result ≡ at_end w }
{
    let end = w.length;
    end <= w.position.0
}

pub fn sub_reader(bytes: &[u8], w: &mut Window, count: u64) -> Result<Window, BitError>
    ensures { answer result w.new ≡ sub_reader count bytes.now w.old }
{
    test(bytes, *w)?;
    inner::sub(w, count)
}

pub fn skip_bits(bytes: &[u8], w: &mut Window, count: u64) -> Result<(), BitError>
    ensures { answer result w.new ≡ skip_bits count bytes.now w.old }
{
    test(bytes, *w)?;
    inner::skip(w, count)
}

pub fn skip_remaining(bytes: &[u8], w: &mut Window) -> Result<(), BitError>
    ensures { answer result w.new ≡ skip_remaining bytes.now w.old }
{
    test(bytes, *w)?;
    w.move_to_end();
    Ok(())
}
