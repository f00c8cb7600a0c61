//! One set of the directory: four ways and three LRU bits.
ghost use Rattle.std.specs.Prelude.{◌≡◌, ℕ, ◌≤◌, length, Some, None, find, is_some, count_by, slice_index};
ghost use Rattle.std.specs.Option.{option_map};
ghost use Rattle.directory.specs.Touch.{every_way};
ghost use Rattle.port.specs.Memory.{offset_of};
ghost use Rattle.directory.specs.Sets.{way_in, has_tag, touched_set, put_set, installed_set, worded_way};

use super::lru::{LruBits, UNTOUCHED, WAYS, WayNumber};

/// The line that a valid way holds: the one of its set that has the tag.
#[derive(Clone, Copy, Debug, PartialEq)]
pub struct Way {
    pub protect: bool,
    pub tag: u32,
    pub words: [u16; 8],
}

/// The four ways of a set, each empty where it is not valid, and the LRU bits of the set. That there are four is told by the calls, and not
/// kept in a ghost field: the rules build sets as plain records.
#[derive(Clone, Copy)]
pub struct SetRecord {
    ways: [Option<Way>; 4],
    lru: LruBits,
}

/// A set with no valid way, never touched.
pub const EMPTY_SET: SetRecord = SetRecord {
    ways: [None; 4],
    lru: UNTOUCHED,
};

impl SetRecord {
    /// Touches the way: it is now the one used last. Nothing else of the set changes.
    pub fn touch(&mut self, way: WayNumber)
        ensures { self.new ≡ touched_set self.old way }
    {
        self.lru = self.lru.touched(way);
    }

    /// Puts a line into the way, all of it at once, and touches the way.
    pub fn install(&mut self, number: WayNumber, way: Way)
        ensures wide { length self.old.ways ≡ 4 }
        ensures after { self.new ≡ installed_set self.old number way }
    {
        self.ways[number as usize] = Some(way);
        self.touch(number);
    }

    /// Empties the way.
    pub fn invalidate(&mut self, way: WayNumber)
        ensures wide { length self.old.ways ≡ 4 }
        ensures after { self.new ≡ put_set self.old way None }
    {
        self.ways[way as usize] = None;
    }

    /// Changes a word of the line in the way, where it is valid.
    pub fn change(&mut self, way: WayNumber, word: u32, value: u16)
        ensures wide { length self.old.ways ≡ 4 }
        ensures after { self.new ≡ put_set self.old way (option_map (λ w. worded_way w (offset_of word) value) (way_in self.old way)) }
    {
        if let Some(held) = &mut self.ways[way as usize] {
            held.words[(word % 8) as usize] = value;
        }
    }

    /// The way, if it is valid.
    pub fn way(&self, way: WayNumber) -> Option<Way>
        ensures { result ≡ way_in self.now way }
    {
        self.ways[way as usize]
    }

    /// A word of the line in the way, if that is valid.
    pub fn word(&self, way: WayNumber, word: u32) -> Option<u16>
        ensures { result ≡ option_map (λ w. slice_index w.words (offset_of word)) (way_in self.now way) }
    {
        self.ways[way as usize]
            .as_ref()
            .map(|line| line.words[(word % 8) as usize])
    }

    /// The first valid way that has the tag.
    pub fn find(&self, tag: u32) -> Option<WayNumber>
        ensures { result ≡ find (λ k. has_tag tag (way_in self.now k)) every_way }
    {
        WAYS.iter().copied().find(|number| self.way(*number).is_some_and(|way| way.tag == tag))
    }

    /// How many ways are valid.
    pub fn valid_ways(&self) -> u32
        ensures value { result ≡ count_by (λ k. is_some (way_in self.now k)) every_way }
        ensures few { result ≤ 4 }
    {
        WAYS.iter()
            .filter(|number| self.way(**number).is_some())
            .count() as u32
    }

    /// The LRU bits of the set.
    pub fn lru(&self) -> LruBits
        ensures { result ≡ self.now.lru }
    {
        self.lru
    }
}
