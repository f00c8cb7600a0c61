//! A bank of EPROM on the caller's bytes.
ghost use Rattle.std.specs.Prelude.{◌≡◌, length};
ghost use Rattle.banks.specs.Sizes.{lines_of_bytes};
ghost use Rattle.banks.specs.Whole.{whole_lines};
ghost use Rattle.banks.specs.Eprom.{eprom_state, LowByteFirst, SixteenBytesAreALine};

use super::sizes::eprom_size;
use fault::Fault;
use port::{Port, Store, check_range, check_write};

/// A bank that borrows the bytes of its words; no write that it takes changes them.
#[derive(Drop)]
pub struct EpromBank<'a> {
    bytes: &'a [u8],
}

impl<'a> EpromBank<'a> {
    /// A bank on these bytes; it has no words where their number is unfit.
    #[tactic(auto, using(crate::proofs::Bytes::low_byte_first, crate::proofs::Numbers::sixteen_bytes))]
    pub fn new(bytes: &'a [u8]) -> EpromBank<'a>
        ensures image { result.bytes.now ≡ bytes.now }
        ensures law { LowByteFirst }
        ensures lines { SixteenBytesAreALine }
    {
        EpromBank { bytes }
    }

    /// Hands the bytes back.
    pub fn into_bytes(self) -> &'a [u8]
        ensures image { result.now ≡ self.entry.bytes.now }
    {
        let bytes = self.bytes;
        bytes
    }
}

impl<'a> Port for EpromBank<'a> {
    ghost state = { λ b. eprom_state b.bytes.now };

    // No call changes an EPROM bank.
    ghost does = { λ b d c. c ≡ b };

    fn words(&self) -> u32 {
        eprom_size(self.bytes).unwrap_or(0)
    }

    fn floor(&self) -> u8 {
        0
    }

    fn marks(&self, line: u32) -> Result<(bool, bool), Fault> {
        check_range(line, self.words() / 8, 0)?;
        Ok((true, true))
    }

    fn waiting(&self) -> u32 {
        0
    }

    fn read(&mut self, word: u32) -> Result<u16, Fault> {
        self.settled_read(word)
    }

    fn write(&mut self, write: Store) -> Result<(), Fault> {
        self.outside_write(write)
    }

    fn advance(&mut self) {}

    fn settled_read(&self, word: u32) -> Result<u16, Fault> {
        check_range(word, self.words(), 0)?;
        let at = word as usize * 2;
        Ok(u16::from_le_bytes([self.bytes[at], self.bytes[at + 1]]))
    }

    fn outside_write(&mut self, write: Store) -> Result<(), Fault> {
        check_write(write, self.words(), 0)
    }

    fn snoop(&mut self, word: u32) -> Result<(), Fault> {
        check_range(word, self.words(), 0)
    }

    fn flush(&mut self) {}

    ghost whole = { λ b. whole_lines (lines_of_bytes (length b.bytes.now)) };
}
