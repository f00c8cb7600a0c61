//! The caller's line records.
ghost use Rattle.std.specs.Prelude.{◌≡◌, length};
ghost use Rattle.banks.specs.Lines.{changed};

use port::Store;

/// Eight words of RAM with their marks.
#[derive(Clone, Copy, Debug, PartialEq)]
pub struct Line {
    pub words: [u16; 8],
    pub cacheable: bool,
    pub protect: bool,
    /// Beside the words and not an `Option` of each: these are the caller's records, and a write changes an unreadable word too.
    pub readable: [bool; 8],
}

impl Line {
    /// Eight words of 0, all readable, in a line that may be cached and is not protected.
    pub const ZEROED: Line = Line {
        words: [0; 8],
        cacheable: true,
        protect: false,
        readable: [true; 8],
    };

    // Changes the lanes of a write in the word at its offset in the line.
    pub(crate) fn change(&mut self, write: Store)
        ensures full { length self.old.words ≡ 8 }
        ensures after { self.new ≡ changed self.old write }
    {
        let offset = (write.word % 8) as usize;
        self.words[offset] = write.over(self.words[offset]);
    }
}
