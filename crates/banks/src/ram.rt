//! A bank of RAM on the caller's line records.
ghost use Rattle.std.specs.Prelude.{◌≡◌, length};
ghost use Rattle.banks.specs.Whole.{whole_lines};
ghost use Rattle.banks.specs.Ram.{ram_state, RamDoes, EachRecordIsALine};

use super::line::Line;
use super::sizes::ram_size;
use fault::{Fault, Refusal};
use port::{Port, Store, check_range, check_write};

/// A bank that borrows its records, and changes one of them for each write to a line that is not protected.
#[derive(Drop)]
pub struct RamBank<'a> {
    lines: &'a mut [Line],
}

impl<'a> RamBank<'a> {
    /// A bank on these records; it has no words where their number is unfit.
    #[tactic(auto, using(crate::proofs::Numbers::each_record))]
    pub fn new(lines: &'a mut [Line]) -> RamBank<'a>
        ensures records { result.lines.now ≡ lines.old }
        ensures caller { result.lines.ghost_name ≡ lines.entry.ghost_name }
        ensures law { EachRecordIsALine }
    {
        RamBank { lines }
    }

    /// Hands the records back, with what they hold now.
    pub fn into_lines(self) -> &'a mut [Line]
        ensures records { result.now ≡ self.entry.lines.now }
        ensures caller { result.ghost_name ≡ self.entry.lines.ghost_name }
    {
        let lines = self.lines;
        lines
    }
}

impl<'a> Port for RamBank<'a> {
    ghost state = { λ b. ram_state b.lines.now };

    ghost does = { λ b d c. RamDoes b d c };

    fn words(&self) -> u32 {
        ram_size(self.lines).unwrap_or(0)
    }

    fn floor(&self) -> u8 {
        0
    }

    fn marks(&self, line: u32) -> Result<(bool, bool), Fault> {
        check_range(line, self.words() / 8, 0)?;
        let lines = &*self.lines;
        let line = &lines[line as usize];
        Ok((line.cacheable, line.protect))
    }

    fn waiting(&self) -> u32 {
        0
    }

    fn read(&mut self, word: u32) -> Result<u16, Fault> {
        self.settled_read(word)
    }

    fn write(&mut self, write: Store) -> Result<(), Fault> {
        self.outside_write(write)
    }

    fn advance(&mut self) {}

    fn settled_read(&self, word: u32) -> Result<u16, Fault> {
        check_range(word, self.words(), 0)?;
        let lines = &*self.lines;
        let line = &lines[(word / 8) as usize];
        let offset = (word % 8) as usize;
        if !line.readable[offset] {
            return Err(Fault {
                refusal: Refusal::Unreadable,
                place: word,
                floor: 0,
            });
        }
        Ok(line.words[offset])
    }

    fn outside_write(&mut self, write: Store) -> Result<(), Fault> {
        check_write(write, self.words(), 0)?;
        let line = (write.word / 8) as usize;
        if !self.lines[line].protect {
            self.lines[line].change(write);
        }
        Ok(())
    }

    fn snoop(&mut self, word: u32) -> Result<(), Fault> {
        check_range(word, self.words(), 0)
    }

    fn flush(&mut self) {}

    ghost whole = { λ b. whole_lines (length b.lines.now) };
}
