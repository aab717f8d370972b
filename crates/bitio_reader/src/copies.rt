// The payload copy: the Rust's `copy_bits_to`.
ghost use Rattle.bitio_reader.specs.Readers.{Copied};

use crate::BitReader;
use bitio::copies;
use bitio_window::BitError;

impl<'a> BitReader<'a> {
    pub fn copy_bits_to(&mut self, target: &mut [u8], count: u64) -> Result<(), BitError>
        ensures { Copied count self.old target.old result self.new target.new }
    {
        copies::copy_bits_to(self.packet, &mut self.window, target, count)
    }
}
