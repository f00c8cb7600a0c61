//! What the directory can be asked.
ghost use Rattle.std.specs.Prelude.{◌≡◌, ℕ, ◌<◌, ◌≤◌, slice_index};
ghost use Rattle.std.specs.Option.{option_map};
ghost use Rattle.port.specs.Memory.{line_of, offset_of};
ghost use Rattle.directory.specs.Touch.{victim_of};
ghost use Rattle.directory.specs.Dirs.{found, set_of, valid_ways};
ghost use Rattle.directory.specs.View.{view, inspected, TellsWhatStands};
ghost use Rattle.directory.specs.Laws.{OneWayHoldsALine, LinesAreDealtToSets, EachValidWayCounts};

use super::{Directory, SETS, set_of, tag_of};
use crate::lru::{LruBits, WayNumber};
use crate::sets::Way;

/// What is told of a way: its flags and tag, all 0 where it is invalid, and the LRU bits of its set. The old program
/// reads each of them of every way.
#[derive(Clone, Copy, Debug, PartialEq)]
pub struct WayState {
    pub valid: bool,
    pub protect: bool,
    pub tag: u32,
    pub lru: LruBits,
}

impl Directory {
    /// The valid way that holds the line.
    #[tactic(auto, using(crate::proofs::Apart::lines_are_dealt))]
    pub fn lookup(&self, line: u32) -> Option<WayNumber>
        ensures value { result ≡ found (view self.now) line }
        ensures law { OneWayHoldsALine (view self.now) }
        ensures sets { LinesAreDealtToSets }
    {
        self.sets[set_of(line)].find(tag_of(line))
    }

    /// A way of the line's set, if it is valid.
    pub fn way(&self, line: u32, way: WayNumber) -> Option<Way>
        ensures { result ≡ (view self.now).way (set_of line) way }
    {
        self.sets[set_of(line)].way(way)
    }

    /// The word in a way of its line's set, if that way is valid.
    pub fn word(&self, word: u32, way: WayNumber) -> Option<u16>
        ensures { result ≡ option_map (λ w. slice_index w.words (offset_of word)) ((view self.now).way (set_of (line_of word)) way) }
    {
        self.sets[set_of(word / 8)].word(way, word)
    }

    /// The way that the next line of this line's set replaces.
    pub fn victim(&self, line: u32) -> WayNumber
        ensures { result ≡ victim_of ((view self.now).lru (set_of line)) }
    {
        self.sets[set_of(line)].lru().victim()
    }

    /// What stands in a way of a set, or nothing where there is no such set or way. The way is a number here, since any number is answered.
    #[tactic(auto, using(crate::proofs::Telling::tells_what_stands))]
    pub fn inspect(&self, set: u32, way: u32) -> Option<WayState>
        ensures value { result ≡ inspected (view self.now) set way }
        ensures law { TellsWhatStands (view self.now) }
    {
        if set >= SETS {
            return None;
        }
        let number = WayNumber::try_from(way).ok()?;
        let record = &self.sets[set as usize];
        let way = record.way(number);
        Some(WayState {
            valid: way.is_some(),
            protect: way.is_some_and(|way| way.protect),
            tag: way.map_or(0, |way| way.tag),
            lru: record.lru(),
        })
    }

    /// How many ways are valid.
    #[tactic(auto, using(crate::proofs::Counting::each_valid_way_counts))]
    pub fn valid_ways(&self) -> u32
        ensures value { result ≡ valid_ways (view self.now) }
        ensures few { result ≤ 1024 }
        ensures law { EachValidWayCounts }
    {
        self.sets.iter().map(|record| record.valid_ways()).sum()
    }
}
