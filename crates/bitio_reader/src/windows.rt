// A reader's window, in the order of vrf-bitio/src/lib.rs: opening it, where it stands, and moving in it without reading.
ghost use Rattle.std.specs.Prelude.{◌≡◌, IfOk};
ghost use Rattle.bitio_window.specs.Windows.{new_window, with_bit_len, bits_remaining, at_end, sub_reader, skip_bits, skip_remaining};
ghost use Rattle.bitio_window.specs.Answers.{answer, outcome};
ghost use Rattle.bitio_reader.specs.Readers.{Moved};
ghost use Rattle.bitio_reader.specs.Openings.{opened_window, HandsOut};

use crate::BitReader;
use bitio::windows;
use bitio_window::BitError;

impl<'a> BitReader<'a> {
    pub fn new(packet: &'a [u8]) -> Result<BitReader<'a>, BitError>
        ensures { (opened_window result ≡ new_window packet.now) × IfOk result (λ r. r.packet ≡ packet.entry) }
    {
        let window = windows::new(packet)?;
        Ok(BitReader { packet, window })
    }

    pub fn with_bit_len(packet: &'a [u8], bit_len: u64) -> Result<BitReader<'a>, BitError>
        ensures { (opened_window result ≡ with_bit_len packet.now bit_len) × IfOk result (λ r. r.packet ≡ packet.entry) }
    {
        let window = windows::with_bit_len(packet, bit_len)?;
        Ok(BitReader { packet, window })
    }

    pub fn position(&self) -> u64
        ensures { result ≡ self.now.window.position.0 }
    {
        windows::position(self.window)
    }

    pub fn len_bits(&self) -> u64
        ensures { result ≡ self.now.window.length }
    {
        windows::len_bits(self.window)
    }

    pub fn bits_remaining(&self) -> Result<u64, BitError>
        ensures { outcome result ≡ bits_remaining self.now.window }
    {
        windows::bits_remaining(self.window)
    }

    pub fn at_end(&self) -> bool
        ensures { result ≡ at_end self.now.window }
    {
        windows::at_end(self.window)
    }

    pub fn sub_reader(&mut self, count: u64) -> Result<BitReader<'a>, BitError>
        ensures { HandsOut (sub_reader count) self.old result self.new }
    {
        let window = windows::sub_reader(self.packet, &mut self.window, count)?;
        Ok(BitReader {
            packet: self.packet,
            window,
        })
    }

    pub fn skip_bits(&mut self, count: u64) -> Result<(), BitError>
        ensures { Moved answer (skip_bits count) self.old result self.new }
    {
        windows::skip_bits(self.packet, &mut self.window, count)
    }

    pub fn skip_remaining(&mut self) -> Result<(), BitError>
        ensures { Moved answer skip_remaining self.old result self.new }
    {
        windows::skip_remaining(self.packet, &mut self.window)
    }
}
