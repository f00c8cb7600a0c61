//! A map that puts one port after another.
#![tactic(auto)]

ghost use Rattle.std.specs.Prelude.{◌≡◌, ◌+◌, ◌/◌, ◌%◌, ◌^◌, ◌<◌, IfErr};
ghost use Rattle.banks.specs.Sizes.{size_of_lines, words_of_lines};
ghost use Rattle.joined_map.specs.Joint.{Still, HighFollowsLow, joint_floor};

use banks::joint_size;
use fault::Fault;
use port::{Port, Store, check_range, check_write, settle_all, write_through};

/// Two ports as one: the words of the high one come after those of the low one.
#[derive(Drop)]
pub struct JoinedMap<L: Port, H: Port> {
    low: L,
    high: H,
    split: u32,
    size: u32,
    level: u8,
    // Nothing waits on either side.
    pub ghost still: { Still (L.state low) (H.state high) },
    ghost parted: { split ≡ (L.state low).facts.words },
    ghost sized: { size ≡ words_of_lines (((L.state low).facts.words + (H.state high).facts.words) / 8) },
    ghost leveled: { level ≡ joint_floor (L.state low).facts.floor (H.state high).facts.floor },
}

/// How many words a map of these two ports has, or why it has none.
#[tactic(auto, using(crate::proofs::Order::high_follows_low))]
pub fn map_size<L: Port, H: Port>(low: &L, high: &H) -> Result<u32, Fault>
    ensures law { HighFollowsLow (L.state low.now) (H.state high.now) }
    ensures value { result ≡ size_of_lines (((L.state low.now).facts.words + (H.state high.now).facts.words) / 8) }
{
    joint_size(low.words(), high.words())
}

// What the high side answers, with a fault's place as the map counts it.
fn shifted<T>(by: u32, res: Result<T, Fault>) -> Result<T, Fault>
    requires { IfErr res (λ fault. fault.place + by < 2 ^ 32) }
    ensures { result ≡ Rattle.joined_map.specs.Joint.shifted by res }
{
    res.map_err(|fault| Fault {
        place: fault.place + by,
        ..fault
    })
}

impl<L: Port, H: Port> JoinedMap<L, H> {
    ghost use Rattle.port.specs.Memory.{drained};
    ghost use Rattle.port.specs.Steps.{Drains};
    ghost use Rattle.joined_map.specs.Runs.{EachSideGetsItsOwn, IdleAdvancesCount};

    /// A map of two ports, once none of their writes waits; it has no words where its size is unfit.
    #[tactic(auto, using(crate::proofs::Idling::idle_advances_count))]
    pub fn new(low: L, high: H) -> JoinedMap<L, H>
        ensures low { L.state result.low ≡ drained (L.state low) }
        ensures high { H.state result.high ≡ drained (H.state high) }
        ensures did { Drains L.state L.does low result.low × Drains H.state H.does high result.high }
        ensures run { EachSideGetsItsOwn L.Port H.Port }
        ensures idle { IdleAdvancesCount L.Port }
    {
        let mut low = low;
        let mut high = high;
        settle_all(&mut low);
        settle_all(&mut high);
        let size = map_size(&low, &high).unwrap_or(0);
        let split = low.words();
        let level = low.floor().max(high.floor()).saturating_add(1);
        JoinedMap {
            low,
            high,
            split,
            size,
            level,
        }
    }

    /// Hands both sides back as they are.
    pub fn into_sides(self) -> (L, H)
        ensures { (result.0 ≡ self.low) × (result.1 ≡ self.high) }
    {
        let JoinedMap {
            low,
            high,
            split: _,
            size: _,
            level: _,
        } = self;
        (low, high)
    }
}

// A call with a word goes to the side that has it: the high side counts its words from 0, and its faults are told as the map counts.
impl<L: Port, H: Port> Port for JoinedMap<L, H> {
    ghost use Rattle.banks.specs.Whole.{whole_lines};
    ghost use Rattle.joined_map.specs.Joint.{joint_state};
    ghost use Rattle.joined_map.specs.Steps.{MapDoes};

    ghost state = { λ b. joint_state (L.state b.low) (H.state b.high) };

    ghost does = { λ b d c. MapDoes b d c };

    fn words(&self) -> u32 {
        self.size
    }

    fn floor(&self) -> u8 {
        self.level
    }

    fn marks(&self, line: u32) -> Result<(bool, bool), Fault> {
        check_range(line, self.words() / 8, self.floor())?;
        let split = self.split / 8;
        match line.checked_sub(split) {
            None => Ok(self.low.marks(line)?),
            Some(line) => Ok(shifted(split, self.high.marks(line))?),
        }
    }

    fn waiting(&self) -> u32 {
        0
    }

    fn read(&mut self, word: u32) -> Result<u16, Fault> {
        check_range(word, self.words(), self.floor())?;
        let split = self.split;
        match word.checked_sub(split) {
            None => Ok(self.low.read(word)?),
            Some(word) => Ok(shifted(split, self.high.read(word))?),
        }
    }

    #[inline]
    fn write(&mut self, write: Store) -> Result<(), Fault> {
        check_write(write, self.words(), self.floor())?;
        let split = self.split;
        match write.word.checked_sub(split) {
            None => Ok(write_through(&mut self.low, write)?),
            Some(word) => Ok(shifted(
                split,
                write_through(&mut self.high, Store { word, ..write }),
            )?),
        }
    }

    fn advance(&mut self) {
        self.low.advance();
        self.high.advance();
    }

    fn settled_read(&self, word: u32) -> Result<u16, Fault> {
        check_range(word, self.words(), self.floor())?;
        let split = self.split;
        match word.checked_sub(split) {
            None => Ok(self.low.settled_read(word)?),
            Some(word) => Ok(shifted(split, self.high.settled_read(word))?),
        }
    }

    #[inline]
    fn outside_write(&mut self, write: Store) -> Result<(), Fault> {
        check_write(write, self.words(), self.floor())?;
        let split = self.split;
        match write.word.checked_sub(split) {
            None => Ok(self.low.outside_write(write)?),
            Some(word) => Ok(shifted(split, self.high.outside_write(Store { word, ..write }))?),
        }
    }

    fn snoop(&mut self, word: u32) -> Result<(), Fault> {
        check_range(word, self.words(), self.floor())?;
        let split = self.split;
        match word.checked_sub(split) {
            None => Ok(self.low.snoop(word)?),
            Some(word) => Ok(shifted(split, self.high.snoop(word))?),
        }
    }

    fn flush(&mut self) {
        self.low.flush();
        self.high.flush();
    }

    ghost whole = { λ b. whole_lines (((L.state b.low).facts.words + (H.state b.high).facts.words) / 8) };
}
