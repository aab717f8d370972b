// A word's two's complement, both ways: the Rust's `as i32` and `as u32`. Functions over the library's casts, since they promise these
// in the words of the definitions (`signed`), which know no machine.
ghost use Rattle.std.specs.Prelude.{◌≡◌};
ghost use Rattle.std.specs.Int.{w32};
ghost use Rattle.std.proofs.Common.{of_z};
ghost use Rattle.bitio_bits.specs.Floats.{signed};

pub fn of_word(v: u32) -> i32
    ensures { result ≡ signed v }
{
    v.cast_signed()
}

pub fn to_word(x: i32) -> u32
    ensures { result ≡ of_z w32 x }
{
    x.cast_unsigned()
}
