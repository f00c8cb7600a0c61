//! What changes the directory.
ghost use Rattle.std.specs.Prelude.{◌≡◌, ℕ, ◌<◌, None};
ghost use Rattle.directory.specs.Dirs.{emptied, found, installed, dropped, changed, touched, set_of, tag_of};
ghost use Rattle.directory.specs.View.{view};
ghost use Rattle.directory.specs.Laws.{TouchedWayIsSpared, OnlyBitsOfOneSet, InstallKeepsOtherLines, FiveLinesTakeTheWaysInTurn, DropForgetsOneLine, ChangeMovesNoLine};

use super::{Directory, set_of, tag_of};
use crate::lru::WayNumber;
use crate::sets::{EMPTY_SET, Way};

impl Directory {
    /// A directory with no valid way, never touched.
    pub fn new() -> Directory
        ensures value { view result ≡ emptied }
        ensures law { FiveLinesTakeTheWaysInTurn }
    {
        Directory {
            sets: [EMPTY_SET; 256],
        }
    }

    /// Empties all ways and clears all LRU bits.
    pub fn clear(&mut self)
        ensures { view self.new ≡ emptied }
    {
        *self = Directory::new();
    }

    /// Touches a way of the line's set.
    pub fn touch(&mut self, line: u32, way: WayNumber)
        ensures after { view self.new ≡ touched (view self.old) (set_of line) way }
        ensures only { OnlyBitsOfOneSet (view self.old) (view self.new) (set_of line) }
        ensures law { TouchedWayIsSpared }
    {
        self.sets[set_of(line)].touch(way);
    }

    /// Puts a line that no way holds into a way of its set, and touches that way.
    pub fn install(&mut self, line: u32, way: WayNumber, protect: bool, words: [u16; 8])
        requires { found (view self.old) line ≡ None }
        ensures after { view self.new ≡ installed (view self.old) line way protect words }
        ensures law { InstallKeepsOtherLines (view self.old) (view self.new) line way }
    {
        let held = Way {
            protect,
            tag: tag_of(line),
            words,
        };
        self.sets[set_of(line)].install(way, held);
    }

    /// Empties the way that holds the line, if there is one. The LRU bits stay.
    pub fn drop_line(&mut self, line: u32)
        ensures after { view self.new ≡ dropped (view self.old) line }
        ensures law { DropForgetsOneLine (view self.old) (view self.new) line }
    {
        if let Some(way) = self.lookup(line) {
            self.sets[set_of(line)].invalidate(way);
        }
    }

    /// Changes a word in a way of its line's set, where that way is valid.
    pub fn change(&mut self, word: u32, way: WayNumber, value: u16)
        ensures after { view self.new ≡ changed (view self.old) word way value }
        ensures law { ChangeMovesNoLine (view self.old) (view self.new) }
    {
        self.sets[set_of(word / 8)].change(way, word, value);
    }
}
