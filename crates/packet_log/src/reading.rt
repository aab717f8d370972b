// The version byte, and the record at a place.
ghost use Rattle.std.specs.Prelude.{◌≡◌};
ghost use Rattle.packet_log.specs.Log.{version_of, entry_at};

use crate::{Cut, Record, VersionError, inner};

#[tactic(auto, unfolding(crate::specs::Log::version_of))]
pub fn version(bytes: &[u8]) -> Result<(), VersionError>
    ensures { result ≡ version_of bytes.now }
{
    match bytes {
        [] => Err(VersionError::Missing),
        [1, ..] => Ok(()),
        [other, ..] => Err(VersionError::Other(*other)),
    }
}

// None at the log's end.
#[tactic(auto, unfolding(crate::specs::Log::entry_at))]
pub fn record_at(bytes: &[u8], at: u64) -> Result<Option<Record>, Cut>
    ensures { result ≡ entry_at bytes.now at }
{
    let size = bytes.len() as u64;
    if at == size {
        return Ok(None);
    }
    if size < at || size - at < 6 {
        return Err(Cut { at });
    }
    let head = inner::head(bytes, at as usize);
    if size - at - 6 < head.length {
        return Err(Cut { at });
    }
    Ok(Some(Record {
        id: head.id,
        start: at + 6,
        length: head.length,
        next: at + 6 + head.length,
    }))
}
