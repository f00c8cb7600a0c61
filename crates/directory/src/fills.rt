//! The line buffer: a fill under way, fetched word by word.
ghost use Rattle.std.specs.Prelude.{◌≡◌, ℕ, ◌+◌, ◌<◌, ◌≤◌, count_ones};
ghost use Rattle.directory.specs.Ticks.{ticked, next_offset, next_word, complete, starting, with_word, fetched_word, Ordered, UnderWay};
ghost use Rattle.directory.specs.Laws.{FillFetchesEachWordOnce, NewTickAddsOne, StoreAddsItsWord, EightTicksAreAll};

use super::lru::WayNumber;

/// A fill under way. That its ticks are in order is asked of callers, and not kept in a ghost field: the rules build fills as
/// plain records.
#[derive(Clone, Copy, Debug, PartialEq)]
pub struct Fill {
    pub line: u32,
    /// The offset in the line that is fetched first; step k fetches this offset XOR k.
    pub first: u8,
    /// The way that the line goes into, as the LRU bits named it at the miss.
    pub way: WayNumber,
    pub protect: bool,
    /// A bit for each offset whose word has been fetched: its ones count the words that have come, and eight complete the fill.
    pub ticks: u8,
    pub words: [u16; 8],
}

impl Fill {
    /// A fill of the word's line that begins with the word.
    pub fn new(word: u32, way: WayNumber, protect: bool) -> Fill
        ensures value { result ≡ starting word way protect }
        ensures sound { UnderWay result }
    {
        Fill {
            line: word / 8,
            first: (word % 8) as u8,
            way,
            protect,
            ticks: 0,
            words: [0; 8],
        }
    }

    // Has the offset been fetched?
    fn is_ticked(&self, offset: u8) -> bool
        requires { offset < 8 }
        ensures { result ≡ ticked self.now.ticks offset }
    {
        (self.ticks >> offset) & 1 == 1
    }

    /// The word, if it has been fetched already.
    pub fn fetched(&self, word: u32) -> Option<u16>
        ensures { result ≡ fetched_word self.now word }
    {
        let offset = (word % 8) as u8;
        if self.line == word / 8 && self.is_ticked(offset) {
            Some(self.words[offset as usize])
        } else {
            None
        }
    }

    /// Have all eight words come?
    pub fn is_complete(&self) -> bool
        ensures value { result ≡ complete self.now }
        ensures few { count_ones self.now.ticks ≤ 8 }
        ensures law { EightTicksAreAll }
    {
        self.ticks.count_ones() == 8
    }

    // The offset that the next step fetches.
    fn next_offset(&self) -> u8
        requires { UnderWay self.now }
        ensures value { result ≡ next_offset self.now }
        ensures small { result < 8 }
    {
        self.first ^ (self.ticks.count_ones() as u8)
    }

    /// The word that is fetched next.
    pub fn next_word(&self) -> u32
        requires { UnderWay self.now }
        ensures value { result ≡ next_word self.now }
        ensures law { FillFetchesEachWordOnce }
    {
        self.line * 8 + self.next_offset() as u32
    }

    /// Takes the value of the word that was fetched next, and ticks its offset.
    pub fn store(&mut self, value: u16)
        requires { UnderWay self.old }
        ensures after { self.new ≡ with_word self.old value }
        ensures sound { Ordered self.new }
        ensures count { count_ones self.new.ticks ≡ count_ones self.old.ticks + 1 }
        ensures adds { StoreAddsItsWord self.old self.new value }
        ensures law { NewTickAddsOne }
    {
        let offset = self.next_offset();
        self.words[offset as usize] = value;
        self.ticks |= 1 << offset;
    }
}
