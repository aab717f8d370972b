// A record's head where its six bytes are there: what a program needs that reads a log through a buffer.
ghost use Rattle.std.specs.Prelude.{◌≡◌, ◌+◌, ◌≤◌, ◌<◌, length};
ghost use Rattle.packet_log.specs.Log.{length_at, id_at};

use crate::Head;
use bitio_bits::inner::signed;

pub fn head(bytes: &[u8], at: usize) -> Head
    requires { at + 6 ≤ length bytes.now }
    ensures { (result.length ≡ length_at bytes.now at) × (result.length < 65536) × (result.id ≡ id_at bytes.now at) }
{
    Head {
        length: u64::from(u16::from_be_bytes([bytes[at], bytes[at + 1]])),
        id: signed::of_word(u32::from_be_bytes([
            bytes[at + 2],
            bytes[at + 3],
            bytes[at + 4],
            bytes[at + 5],
        ])),
    }
}
