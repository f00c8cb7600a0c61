//! The tables of a cache: the directory, and the line buffer with the fill under way.
ghost use Rattle.std.specs.Prelude.{◌≡◌, is_some, Some, None};
ghost use Rattle.directory.specs.Dirs.{found};
ghost use Rattle.directory.specs.Ticks.{with_word, UnderWay};
ghost use Rattle.directory.specs.declared.fills.Fill.{Fill};
ghost use Rattle.cache_tables.specs.Rules.{model, stowed, buffered_of, hit, touched_by, begun_fill, dropped, cleared, fills_open, written};

use directory::{Directory, Fill};
use port::Store;

/// The directory, and the fill under way, if there is one.
#[derive(Drop)]
pub struct Tables {
    pub directory: Directory,
    pub fill: Option<Fill>,
}

impl Tables {
    /// Tables with no valid way, no LRU bit set and no fill.
    pub fn new() -> Tables
        ensures { model result ≡ cleared }
    {
        Tables {
            directory: Directory::new(),
            fill: None,
        }
    }

    /// Is a fill under way?
    pub fn is_filling(&self) -> bool
        ensures { result ≡ is_some self.now.fill }
    {
        self.fill.is_some()
    }

    /// Is a fill of the line under way, and the line open to writes?
    pub fn fills_open(&self, line: u32) -> bool
        ensures { result ≡ fills_open self.now.fill line }
    {
        self.fill
            .is_some_and(|fill| fill.line == line && !fill.protect)
    }

    /// The word, if it has been fetched for the line under fill.
    pub fn buffered(&self, word: u32) -> Option<u16>
        ensures { result ≡ buffered_of self.now.fill word }
    {
        self.fill.as_ref().and_then(|fill| fill.fetched(word))
    }

    /// Takes the next word of the line under fill; the eighth completes the line.
    pub fn stow(&mut self, value: u16)
        requires under { (b : Fill) → self.old.fill ≡ Some b → UnderWay b }
        requires absent { (b : Fill) → self.old.fill ≡ Some b → found (model self.old).dir b.line ≡ None }
        ensures after { (b : Fill) → self.old.fill ≡ Some b → model self.new ≡ stowed (model self.old).dir (with_word b value) }
        ensures idle { self.old.fill ≡ None → self.new ≡ self.old }
    {
        if let Some(fill) = &mut self.fill {
            fill.store(value);
            if fill.is_complete() {
                self.directory
                    .install(fill.line, fill.way, fill.protect, fill.words);
                self.fill = None;
            }
        }
    }

    /// Begins a fill with its first word, and with the victim of this moment.
    pub fn begin(&mut self, word: u32, protect: bool, value: u16)
        ensures dir { (model self.new).dir ≡ (model self.old).dir }
        ensures fill { self.new.fill ≡ Some (begun_fill (model self.old).dir word protect value) }
    {
        let way = self.directory.victim(word / 8);
        let mut fill = Fill::new(word, way, protect);
        fill.store(value);
        self.fill = Some(fill);
    }

    /// The word, if a way holds its line; that way is touched.
    pub fn hit(&mut self, word: u32) -> Option<u16>
        ensures value { result ≡ hit (model self.old).dir word }
        ensures after { model self.new ≡ touched_by (model self.old) word }
    {
        let number = self.directory.lookup(word / 8)?;
        self.directory.touch(word / 8, number);
        self.directory.word(word, number)
    }

    /// Changes the lanes of the write where a way holds its line; that way is touched, and a protected one is not changed.
    // A cache does this for every write.
    #[inline(always)]
    pub fn change(&mut self, write: Store)
        ensures { model self.new ≡ written (model self.old) write }
    {
        let line = write.word / 8;
        if let Some(number) = self.directory.lookup(line) {
            self.directory.touch(line, number);
            let open = self.directory.way(line, number).filter(|way| !way.protect);
            if let Some(way) = open {
                let old = way.words[(write.word % 8) as usize];
                self.directory.change(write.word, number, write.over(old));
            }
        }
    }

    /// Drops a line: its fill is abandoned, and its way becomes invalid.
    pub fn drop_line(&mut self, line: u32)
        ensures { model self.new ≡ dropped (model self.old) line }
    {
        if self.fill.is_some_and(|fill| fill.line == line) {
            self.fill = None;
        }
        self.directory.drop_line(line);
    }

    /// Empties all ways, clears all LRU bits, and abandons the fill.
    pub fn clear(&mut self)
        ensures { model self.new ≡ cleared }
    {
        self.directory.clear();
        self.fill = None;
    }
}
