// The sequence of a bunch: the middle of the Rust's `parse_bunch_header`, and what it stores at its end.
ghost use Rattle.std.specs.Prelude.{◌≡◌, ◌≤◌, eqb, length};
ghost use Rattle.tables.specs.Tables.{without};
ghost use Rattle.types.specs.Continuing.{last_sequence};
ghost use Rattle.packet_tracking.specs.Sequences.{reliably};
ghost use Rattle.packet_tracking.specs.SequenceColumns.{sequences_at, numbered_in, sequences_laid, LaidSequences};
ghost use Rattle.packet_tracking.specs.Fits.{TableFits, TableLive};

use tables::inner;
use types::continuing::{LAST_SEQUENCE, following};

#[derive(Clone, Copy, Debug, PartialEq, Eq)]
pub struct Numbered {
    pub sequence: u32,
    pub limited: bool,
}

// Whether no sequence follows.
fn is_last(sequence: u32) -> bool
    ensures { result ≡ eqb sequence last_sequence }
{
    sequence == LAST_SEQUENCE
}

pub fn reliably(
    channels: &mut [u32],
    numbers: &mut [u32],
    live: &mut usize,
    limit: usize,
    channel: u32,
) -> Numbered
    requires { TableFits limit live.old channels.old × (limit ≤ length numbers.old) }
    ensures { let numbering = reliably limit channel (sequences_at live.old channels.old numbers.old) in
        numbered_in result live.new channels.new numbers.new
        ≡ sequences_laid numbering channels.old numbers.old }
{
    match inner::find(channels, *live, channel) {
        Ok(i) => {
            let previous = numbers[i];
            if is_last(previous) {
                return Numbered {
                    sequence: previous,
                    limited: true,
                };
            }
            let next = following(previous);
            numbers[i] = next;
            Numbered {
                sequence: next,
                limited: false,
            }
        }
        Err(i) => {
            if limit <= *live {
                return Numbered {
                    sequence: 1,
                    limited: true,
                };
            }
            inner::insert(channels, *live, i, channel);
            inner::insert(numbers, *live, i, 1);
            *live += 1;
            Numbered {
                sequence: 1,
                limited: false,
            }
        }
    }
}

// The channel's place falls vacant: the Rust's `retire_channel`, for this table.
pub fn retire_sequence(channels: &mut [u32], numbers: &mut [u32], live: &mut usize, channel: u32)
    requires { TableLive live.old channels.old × (live.old ≤ length numbers.old) }
    ensures { let left = without channel (sequences_at live.old channels.old numbers.old) in
        LaidSequences left channels.old numbers.old live.new channels.new numbers.new }
{
    match inner::find(channels, *live, channel) {
        Ok(i) => {
            inner::remove(channels, *live, i);
            inner::remove(numbers, *live, i);
            *live -= 1;
        }
        Err(_) => {}
    }
}
