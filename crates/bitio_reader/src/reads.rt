// Reads, in the order of vrf-bitio/src/lib.rs. Each asks `bitio` at the reader's place, which moves to where that read stopped. A line for
// each of the Rust's methods: they differ in the call alone.
ghost use Rattle.bitio_window.specs.Reads.{read_bit, read_bits, read_i32, read_f32, read_f64};
ghost use Rattle.bitio_window.specs.Numbers.{read_packed, read_serialized};
ghost use Rattle.bitio_window.specs.Answers.{answer, answer_of, decoded_of};
ghost use Rattle.bitio_reader.specs.Readers.{Moved};

use crate::BitReader;
use bitio::reads;
use bitio_window::{BitError, F32, F64};

impl<'a> BitReader<'a> {
    pub fn read_bit(&mut self) -> Result<bool, BitError>
        ensures { Moved answer read_bit self.old result self.new }
    {
        reads::read_bit(self.packet, &mut self.window)
    }

    pub fn read_bits(&mut self, count: u32) -> Result<u64, BitError>
        ensures { Moved answer (read_bits count) self.old result self.new }
    {
        reads::read_bits(self.packet, &mut self.window, count)
    }

    pub fn read_u8(&mut self) -> Result<u8, BitError>
        ensures { Moved answer (read_bits 8) self.old result self.new }
    {
        reads::read_u8(self.packet, &mut self.window)
    }

    pub fn read_u16(&mut self) -> Result<u16, BitError>
        ensures { Moved answer (read_bits 16) self.old result self.new }
    {
        reads::read_u16(self.packet, &mut self.window)
    }

    pub fn read_u32(&mut self) -> Result<u32, BitError>
        ensures { Moved answer (read_bits 32) self.old result self.new }
    {
        reads::read_u32(self.packet, &mut self.window)
    }

    pub fn read_i32(&mut self) -> Result<i32, BitError>
        ensures { Moved answer read_i32 self.old result self.new }
    {
        reads::read_i32(self.packet, &mut self.window)
    }

    pub fn read_u64(&mut self) -> Result<u64, BitError>
        ensures { Moved answer (read_bits 64) self.old result self.new }
    {
        reads::read_u64(self.packet, &mut self.window)
    }

    pub fn read_f32(&mut self) -> Result<F32, BitError>
        ensures { Moved (answer_of decoded_of) read_f32 self.old result self.new }
    {
        reads::read_f32(self.packet, &mut self.window)
    }

    pub fn read_f64(&mut self) -> Result<F64, BitError>
        ensures { Moved (answer_of decoded_of) read_f64 self.old result self.new }
    {
        reads::read_f64(self.packet, &mut self.window)
    }

    pub fn read_int_packed(&mut self) -> Result<u32, BitError>
        ensures { Moved answer read_packed self.old result self.new }
    {
        reads::read_int_packed(self.packet, &mut self.window)
    }

    pub fn read_serialized_int(&mut self, max: u32) -> Result<u32, BitError>
        ensures { Moved answer (read_serialized max) self.old result self.new }
    {
        reads::read_serialized_int(self.packet, &mut self.window, max)
    }
}
