// Lists a packet log that it reads on standard input, and says on standard error how the listing ended.
#![tactic(auto)]

ghost use Rattle.std.specs.Prelude.{◌≡◌, length};
ghost use Rattle.types.specs.Types.{most_channels};

use packet_reading::ReaderColumns;
use types::MAX_ACTIVE_CHANNELS;

mod inner;

// A record has at most 65,541 bytes; with more room fewer reads and slides are needed.
fn input_room() -> [u8; 262144]
    ensures { 262144 ≡ length result }
{
    [0; 262144]
}

// What any packet adds finds room, and 361,472 bytes gather before they are written.
fn output_room() -> [u8; 2097152]
    ensures { 2097152 ≡ length result }
{
    [0; 2097152]
}

// A column of the reader's tables at document 01's limit.
fn column() -> [u32; MAX_ACTIVE_CHANNELS]
    ensures { most_channels ≡ length result }
{
    [0; MAX_ACTIVE_CHANNELS]
}

fn main(rt: HostRuntime) {
    let mut buffer = input_room();
    let mut out = output_room();
    let mut sequence_channels = column();
    let mut sequence_numbers = column();
    let mut partial_channels = column();
    let mut partial_sequences = column();
    let mut partial_reliables = column();
    let mut columns = ReaderColumns {
        sequence_channels: &mut sequence_channels,
        sequence_numbers: &mut sequence_numbers,
        partial_channels: &mut partial_channels,
        partial_sequences: &mut partial_sequences,
        partial_reliables: &mut partial_reliables,
    };
    let ended = inner::run::list(
        &mut rt.stdin(),
        &mut rt.stdout(),
        &mut buffer,
        &mut out,
        &mut columns,
    );
    let outcome = ended.outcome;
    let _ = inner::said::say(&mut rt.stderr(), outcome);
}
