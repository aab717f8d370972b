// Bytes, texts and numbers in a lent slice, each from a place on, where there is room.
ghost use Rattle.std.specs.Prelude.{◌≡◌, [], ◌∷◌, ◌+◌, ◌≤◌, length};
ghost use Rattle.log_lines.specs.Decimal.{decimal, decimal_signed};
ghost use Rattle.log_lines.specs.Puts.{Put};

use itoa::Buffer;

pub fn byte(out: &mut [u8], at: usize, value: u8) -> usize
    requires { at + 1 ≤ length out.old }
    ensures { Put 1 out.old at (value ∷ []) out.new result }
{
    out[at] = value;
    at + 1
}

pub fn text(out: &mut [u8], at: usize, bytes: &[u8]) -> usize
    requires { at + length bytes.now ≤ length out.old }
    ensures { Put (length bytes.now) out.old at bytes.now out.new result }
{
    let end = at + bytes.len();
    out[at..end].copy_from_slice(bytes);
    end
}

// A number of one digit takes no buffer: most numbers of a listing have one.
fn printed(out: &mut [u8], at: usize, n: u64) -> usize
    requires { at + 20 ≤ length out.old }
    ensures { Put 20 out.old at (decimal n) out.new result }
{
    if n < 10 {
        return byte(out, at, b'0' + n as u8);
    }
    text(out, at, Buffer::new().format(n).as_bytes())
}

pub fn number(out: &mut [u8], at: usize, n: u64) -> usize
    requires { at + 21 ≤ length out.old }
    ensures { Put 21 out.old at (32 ∷ decimal n) out.new result }
{
    let digits = byte(out, at, b' ');
    printed(out, digits, n)
}

pub fn signed_number(out: &mut [u8], at: usize, n: i32) -> usize
    requires { at + 12 ≤ length out.old }
    ensures { Put 12 out.old at (32 ∷ decimal_signed n) out.new result }
{
    let sign = byte(out, at, b' ');
    if 0 <= n && n < 10 {
        return byte(out, sign, b'0' + n as u8);
    }
    text(out, sign, Buffer::new().format(n).as_bytes())
}
