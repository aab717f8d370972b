// The header's fields as those of one peeked word, without a branch: a field that is not wanted is 0 bits wide, and whether the bits
// used were there is for the caller to test, once.
ghost use Rattle.std.specs.Prelude.{◌≡◌, false, ◌+◌, ◌≤◌, ◌<◌};
ghost use Rattle.bitio_window.specs.Parse.{read_if};
ghost use Rattle.bitio_window.specs.Reads.{bit};
ghost use Rattle.bitio_window.specs.Numbers.{packed, serialized};
ghost use Rattle.packet_header.specs.Header.{fields};
ghost use Rattle.packet_header.specs.Word.{Reads, shifted};

use crate::BunchFields;
use bitio_bits::inner::arithmetic::only_if;
use bitio_bits::inner::masks::low;
use bitio_window::inner::numbers::serialized_width;
use types::{CHANNEL_CLOSE_REASON_MAX, MAX_PACKET_SIZE_BITS};

// What is left of the word, and how many of its bits were used.
#[derive(Clone, Copy, Debug, PartialEq, Eq)]
pub struct Rest {
    pub word: u64,
    pub used: u64,
}

impl Rest {
    fn pass(&mut self, n: u64)
        requires { (n < 64) × (self.old.used ≤ 1024) }
        ensures { self.new ≡ shifted self.old n }
    {
        self.word >>= n;
        self.used += n;
    }

    fn flag(&mut self, wanted: bool) -> bool
        requires { self.old.used ≤ 1024 }
        ensures { Reads (read_if wanted false bit) self.old result self.new × (self.new.used ≤ self.old.used + 1) }
    {
        let value = wanted & (self.word % 2 == 1);
        self.pass(only_if(wanted, 1));
        value
    }

    // Of one or two bytes; a longer one uses more bits than a word has.
    fn packed(&mut self, wanted: bool) -> u32
        requires { self.old.used ≤ 1024 }
        ensures { Reads (read_if wanted 0 packed) self.old result self.new × (self.new.used ≤ self.old.used + 63) }
    {
        let second = wanted & (self.word % 2 == 1);
        let third = second & (self.word / 256 % 2 == 1);
        let width = only_if(wanted, 8) + only_if(second, 8) + only_if(third, 47);
        let bytes = low(width, self.word);
        self.pass(width);
        (low(7, bytes / 2) + low(7, bytes / 512) * 128) as u32
    }

    // One field, of as many bits as its lowest ones say.
    fn serialized(&mut self, wanted: bool, max: u32) -> u32
        requires { (self.old.used ≤ 1024) × (0 < max) }
        ensures { Reads (read_if wanted 0 (serialized max)) self.old result self.new × (self.new.used ≤ self.old.used + 32) }
    {
        let width = only_if(wanted, serialized_width(self.word, max));
        let value = low(width, self.word);
        self.pass(width);
        value as u32
    }
}

// The fields of a word, with what is left of it.
#[derive(Clone, Copy, Debug, PartialEq, Eq)]
pub struct QuickFields {
    pub fields: BunchFields,
    pub rest: Rest,
}

pub fn fields_of(word: u64) -> QuickFields
    ensures { Reads fields (record { word = word; used = 0 }) result.fields result.rest }
{
    let mut rest = Rest { word, used: 0 };
    let control = rest.flag(true);
    let b_open = rest.flag(control);
    let b_close = rest.flag(control);
    let close_reason = rest.serialized(b_close, CHANNEL_CLOSE_REASON_MAX);
    let b_is_replication_paused = rest.flag(true);
    let b_reliable = rest.flag(true);
    let ch_index = rest.packed(true);
    let b_has_package_map_exports = rest.flag(true);
    let b_has_must_be_mapped_guids = rest.flag(true);
    let b_partial = rest.flag(true);
    let _ignored = rest.flag(true);
    let b_partial_initial = rest.flag(b_partial);
    let b_partial_final = rest.flag(b_partial);
    let named = b_reliable | b_open;
    let _hardcoded = rest.flag(named);
    let _name = rest.packed(named);
    let payload_bit_count = rest.serialized(true, MAX_PACKET_SIZE_BITS);
    let fields = BunchFields {
        b_open,
        b_close,
        close_reason,
        b_is_replication_paused,
        b_reliable,
        ch_index,
        b_has_package_map_exports,
        b_has_must_be_mapped_guids,
        b_partial,
        b_partial_initial,
        b_partial_final,
        payload_bit_count,
    };
    QuickFields { fields, rest }
}
