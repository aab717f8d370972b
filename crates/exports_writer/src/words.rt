// A writer's answer as words.
ghost use Rattle.std.specs.Prelude.{◌≡◌};
ghost use Rattle.bitio_window.specs.Parse.{refusal};
ghost use Rattle.writer.specs.Answers.{write_paper, of_written};
ghost use Rattle.exports_writer.specs.Words.{written_words};

use bitio_window::PacketBit;
use writer::WriteError;

// Numbers for kinds, since C reads them (include/gritwheel.h).
pub type WrittenWords = [u64; 3];

fn refused(e: WriteError) -> WrittenWords
    ensures { result ≡ written_words (refusal (write_paper e)) }
{
    match e {
        WriteError::CursorPastRoom {
            position,
            available,
        } => [5, position, available],
        WriteError::PayloadTooLong { count } => [11, count, 0],
        WriteError::PayloadShort { count } => [12, count, 0],
        WriteError::Unwritable => [16, 0, 0],
        WriteError::NoRoom { bits } => [17, bits, 0],
    }
}

#[tactic(auto, unfolding(crate::specs::Words::written_words))]
pub fn of_written(w: Result<PacketBit, WriteError>) -> WrittenWords
    ensures { result ≡ written_words (of_written w) }
{
    match w {
        Ok(bit) => [0, bit.0, 0],
        Err(e) => refused(e),
    }
}
