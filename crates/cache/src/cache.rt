//! The stage itself: tables over any port, which is a port again.
ghost use Rattle.cache_tables.specs.Showing.{shown};
ghost use Rattle.cache_tables.specs.Rules.{model};
ghost use Rattle.cache_tables.specs.Coherence.{Coherent};

use crate::questions::inspect;
use cache_tables::Tables;
use directory::WayState;
use fault::Fault;
use port::{Port, Store, check_above, check_store_above, marks_above};

/// A port that keeps lines of the port below.
#[derive(Drop)]
pub struct Cache<P: Port> {
    below: P,
    tables: Tables,
    // The tables hold what is seen below.
    pub ghost coherent: { Coherent (shown (P.state below)) (model tables) },
}

impl<P: Port> Cache<P> {
    ghost use Rattle.std.specs.Prelude.{◌≡◌, ◌<◌, false, None};
    ghost use Rattle.port.specs.Meaning.{Settles};
    ghost use Rattle.directory.specs.Dirs.{found};
    ghost use Rattle.port.specs.Memory.{line_of};
    ghost use Rattle.cache_tables.specs.Showing.{reading};
    ghost use Rattle.cache_tables.specs.Rules.{fetch_turn, finish_turn, miss_turn, fills_open, ready_turn};
    ghost use Rattle.cache.specs.Doing.{shows_below, tables_of, TakesTurn};

    /// Takes the cache apart. The port below is as it was, and nothing settles.
    pub fn into_parts(self) -> (P, Tables)
        ensures below { result.0 ≡ self.below }
        ensures tables { result.1 ≡ self.tables }
    {
        let Cache { below, tables } = self;
        (below, tables)
    }

    // Each of these four says what it did below and to the tables; that some writes may have settled below is one clause of each.

    // Fetches the next word of the line under fill, if there is one. A miss does this up to seven times.
    #[inline(always)]
    fn fetch_one(&mut self)
        ensures after { Settles (P.state self.old.below) (P.state self.new.below) }
        ensures did { TakesTurn (fetch_turn (shows_below self.old) (tables_of self.old)) self.old self.new }
    {
        if let Some(fill) = self.tables.fill {
            match self.below.read(fill.next_word()) {
                Ok(value) => self.tables.stow(value),
                Err(_) => self.tables.fill = None,
            }
        }
    }

    // Finishes the fill under way, if there is one.
    fn finish(&mut self)
        ensures after { Settles (P.state self.old.below) (P.state self.new.below) }
        ensures did { TakesTurn (finish_turn (shows_below self.old) (tables_of self.old)) self.old self.new }
    {
        while self.tables.is_filling() {
            self.fetch_one();
        }
    }

    // Reads a word below that the tables do not hold, and begins a fill of its line if that may be cached.
    fn miss(&mut self, word: u32) -> Result<u16, Fault>
        requires idle { self.old.tables.fill ≡ None }
        requires absent { found (tables_of self.old).dir (line_of word) ≡ None }
        requires inside { word < (P.state self.old.below).facts.words }
        ensures value { result ≡ reading (shows_below self.old) word }
        ensures after { Settles (P.state self.old.below) (P.state self.new.below) }
        ensures did { TakesTurn (miss_turn (shows_below self.old) (tables_of self.old).dir word) self.old self.new }
    {
        let value = self.below.read(word)?;
        let (cacheable, protect) = self.below.marks(word / 8)?;
        if cacheable {
            self.tables.begin(word, protect, value);
        }
        Ok(value)
    }

    // Before a write to a line: finishes a fill of it, unless the line is protected.
    fn make_ready(&mut self, line: u32)
        ensures after { Settles (P.state self.old.below) (P.state self.new.below) }
        ensures did { TakesTurn (ready_turn (shows_below self.old) (tables_of self.old) line) self.old self.new }
        ensures closed { fills_open self.new.tables.fill line ≡ false }
    {
        if self.tables.fills_open(line) {
            self.finish();
        }
    }
}

impl<P: Port> Cache<P> {
    ghost use Rattle.std.specs.Prelude.{◌≡◌, ◌≤◌};
    ghost use Rattle.port.specs.Memory.{floor_above};
    ghost use Rattle.directory.specs.Dirs.{valid_ways};
    ghost use Rattle.cache_tables.specs.Rules.{cleared};
    ghost use Rattle.cache_tables.specs.Laws.{SettlingNeverShows, AnswersAreWhatIsSeen, LinesLandWhereNamed};
    ghost use Rattle.cache_tables.specs.Examples.{TwoLineExamplesHold};
    ghost use Rattle.cache.specs.Doing.{tables_of, inspect_answer};
    ghost use Rattle.cache.specs.Promises.{UsedWaysAreSpared, MastersWritesAreForgotten, HitsOnlyTouch, MissesBeginFills, WritesLandOrOnlyTouch, AdvancesFetchOneWord};
    ghost use Rattle.cache.specs.Runs.{OnlyReadsAreKept};

    /// A cache over a port, with no valid way, no LRU bit set and no fill.
    #[tactic(auto, using(cache_tables::proofs::Lawful::promises, crate::proofs::Promising::promises, crate::proofs::Passing::only_reads_are_kept))]
    pub fn new(below: P) -> Cache<P>
        ensures below { result.below ≡ below }
        ensures tables { tables_of result ≡ cleared }
        ensures unseen { SettlingNeverShows }
        ensures newest { AnswersAreWhatIsSeen }
        ensures lands { LinesLandWhereNamed }
        ensures spares { UsedWaysAreSpared P.Port }
        ensures forgets { MastersWritesAreForgotten P.Port }
        ensures hits { HitsOnlyTouch P.Port }
        ensures misses { MissesBeginFills P.Port }
        ensures writes { WritesLandOrOnlyTouch P.Port }
        ensures advances { AdvancesFetchOneWord P.Port }
        ensures examples { TwoLineExamplesHold }
        ensures run { OnlyReadsAreKept P.Port }
    {
        Cache {
            below,
            tables: Tables::new(),
        }
    }

    /// What stands in a way of a set. Both are numbers, since any number is answered.
    pub fn inspect(&self, set: u32, way: u32) -> Result<WayState, Fault>
        ensures { result ≡ inspect_answer (tables_of self.now).dir (floor_above (P.state self.now.below).facts.floor) set way }
    {
        inspect(&self.tables, self.floor(), set, way)
    }

    /// How many ways are valid.
    pub fn valid_ways(&self) -> u32
        ensures value { result ≡ valid_ways (tables_of self.now).dir }
        ensures few { result ≤ 1024 }
    {
        self.tables.directory.valid_ways()
    }
}

impl<P: Port> Port for Cache<P> {
    ghost use Rattle.port.specs.Memory.{raised};
    ghost use Rattle.cache.specs.Doing.{Does};

    ghost state = { λ c. raised (P.state c.below) };

    ghost does = { Does };

    fn words(&self) -> u32 {
        self.below.words()
    }

    fn floor(&self) -> u8 {
        self.below.floor().saturating_add(1)
    }

    fn marks(&self, line: u32) -> Result<(bool, bool), Fault> {
        marks_above(&self.below, line)
    }

    fn waiting(&self) -> u32 {
        self.below.waiting()
    }

    fn read(&mut self, word: u32) -> Result<u16, Fault> {
        check_above(&self.below, word)?;
        if let Some(value) = self.tables.buffered(word) {
            return Ok(value);
        }
        if let Some(value) = self.tables.hit(word) {
            return Ok(value);
        }
        self.finish();
        if let Some(value) = self.tables.hit(word) {
            return Ok(value);
        }
        self.miss(word)
    }

    fn write(&mut self, write: Store) -> Result<(), Fault> {
        check_store_above(&self.below, write)?;
        self.make_ready(write.word / 8);
        self.tables.change(write);
        self.below.write(write)
    }

    fn advance(&mut self) {
        self.fetch_one();
        self.below.advance();
    }

    fn settled_read(&self, word: u32) -> Result<u16, Fault> {
        check_above(&self.below, word)?;
        self.below.settled_read(word)
    }

    fn outside_write(&mut self, write: Store) -> Result<(), Fault> {
        check_store_above(&self.below, write)?;
        self.tables.drop_line(write.word / 8);
        self.below.outside_write(write)
    }

    fn snoop(&mut self, word: u32) -> Result<(), Fault> {
        check_above(&self.below, word)?;
        self.tables.drop_line(word / 8);
        self.below.snoop(word)
    }

    fn flush(&mut self) {
        self.tables.clear();
        self.below.flush();
    }

    ghost whole = { λ c. P.whole c.below };
}
