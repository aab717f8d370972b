// The header's reads in a row.
ghost use Rattle.std.specs.Prelude.{◌≡◌, false, ◌<◌};
ghost use Rattle.bitio_window.specs.Parse.{read_if};
ghost use Rattle.bitio_window.specs.Answers.{answer};
ghost use Rattle.bitio_window.specs.Reads.{bit};
ghost use Rattle.bitio_window.specs.Numbers.{packed, serialized};
ghost use Rattle.bitio_window.specs.Sound.{Sound};
ghost use Rattle.packet_header.specs.Header.{fields};

use crate::BunchFields;
use bitio_window::inner::{numbers, words};
use bitio_window::{BitError, Window, inner};
use types::{CHANNEL_CLOSE_REASON_MAX, MAX_PACKET_SIZE_BITS};

pub mod quick;

// A bit, where it is wanted.
#[tactic(auto, unfolding(bitio_window::specs::Parse::read_if, bitio_window::specs::Parse::give))]
fn flag(bytes: &[u8], w: &mut Window, wanted: bool) -> Result<bool, BitError>
    requires { Sound bytes.now w.old }
    ensures { (answer result w.new ≡ read_if wanted false bit bytes.now w.old) × Sound bytes.now w.new }
{
    if wanted {
        return inner::bit(bytes, w);
    }
    Ok(false)
}

// `flag`, this and `serialized` are an `if` each: over a closure their callers would say no less.
#[tactic(auto, unfolding(bitio_window::specs::Parse::read_if, bitio_window::specs::Parse::give))]
fn packed(bytes: &[u8], w: &mut Window, wanted: bool) -> Result<u32, BitError>
    requires { Sound bytes.now w.old }
    ensures { (answer result w.new ≡ read_if wanted 0 packed bytes.now w.old) × Sound bytes.now w.new }
{
    if wanted {
        return numbers::packed(bytes, w);
    }
    Ok(0)
}

#[tactic(auto, unfolding(bitio_window::specs::Parse::read_if, bitio_window::specs::Parse::give))]
fn serialized(bytes: &[u8], w: &mut Window, wanted: bool, max: u32) -> Result<u32, BitError>
    requires { Sound bytes.now w.old × (0 < max) }
    ensures { (answer result w.new ≡ read_if wanted 0 (serialized max) bytes.now w.old) × Sound bytes.now w.new }
{
    if wanted {
        return numbers::serialized(bytes, w, max);
    }
    Ok(0)
}

// Read by read: what a header comes to that one word doesn't hold.
fn read_row(bytes: &[u8], w: &mut Window) -> Result<BunchFields, BitError>
    requires { Sound bytes.now w.old }
    ensures { (answer result w.new ≡ fields bytes.now w.old) × Sound bytes.now w.new }
{
    let control = inner::bit(bytes, w)?;
    let b_open = flag(bytes, w, control)?;
    let b_close = flag(bytes, w, control)?;
    let close_reason = serialized(bytes, w, b_close, CHANNEL_CLOSE_REASON_MAX)?;
    let b_is_replication_paused = inner::bit(bytes, w)?;
    let b_reliable = inner::bit(bytes, w)?;
    let ch_index = numbers::packed(bytes, w)?;
    let b_has_package_map_exports = inner::bit(bytes, w)?;
    let b_has_must_be_mapped_guids = inner::bit(bytes, w)?;
    let b_partial = inner::bit(bytes, w)?;
    let _ignored = inner::bit(bytes, w)?;
    let b_partial_initial = flag(bytes, w, b_partial)?;
    let b_partial_final = flag(bytes, w, b_partial)?;
    let named = b_reliable | b_open;
    let _hardcoded = flag(bytes, w, named)?;
    let _name = packed(bytes, w, named)?;
    let payload_bit_count = numbers::serialized(bytes, w, MAX_PACKET_SIZE_BITS)?;
    Ok(BunchFields {
        b_open,
        b_close,
        close_reason,
        b_is_replication_paused,
        b_reliable,
        ch_index,
        b_has_package_map_exports,
        b_has_must_be_mapped_guids,
        b_partial,
        b_partial_initial,
        b_partial_final,
        payload_bit_count,
    })
}

// The Rust's `parse_bunch_header` without what it looks up. Most headers are fields of one word.
pub fn read_fields(bytes: &[u8], w: &mut Window) -> Result<BunchFields, BitError>
    requires { Sound bytes.now w.old }
    ensures { (answer result w.new ≡ fields bytes.now w.old) × Sound bytes.now w.new }
{
    let quick = quick::fields_of(words::peek(bytes, w.packet_bit()));
    let rest = quick.rest;
    if (rest.used <= 57) & (rest.used <= w.left()) {
        w.advance(rest.used);
        return Ok(quick.fields);
    }
    // A copy, so that only the row keeps its window in memory.
    let mut at = *w;
    let read = read_row(bytes, &mut at);
    *w = at;
    read
}
