//! One memory port: what every port means, and what the stages above it may rest on.
#![tactic(auto)]

ghost use Rattle.std.specs.Prelude.{◌≡◌, ℕ, [], ◌∷◌, OnOk};
ghost use Rattle.port.specs.Lanes.{merged};
ghost use Rattle.port.specs.Memory.{State, WholeLines, seen, posted, drained, outside, raised};
ghost use Rattle.port.specs.Meaning.{within, writable, read_answer, settled_answer, write_answer, snoop_answer, marks_answer, waiting_answer, Settles, Advances, ByAnswer, Kept};
ghost use Rattle.port.specs.Checks.{InRange, Writable};
ghost use Rattle.port.specs.Steps.{Step, reads, writes, advances, outsides, snoops, flushes, Drains, Through};
ghost use Rattle.port.specs.Laws.{SettlingIsNeverSeen, RefusedInOrder, CountsStop, LanesReplaceBytes, StagesShowThePortBelow, MarksAndFlagsStay, EachCallCounts};

use fault::{Fault, Refusal};

/// A write: its value replaces some lanes of a word.
#[derive(Clone, Copy, Debug, PartialEq)]
pub struct Store {
    pub word: u32,
    /// 1 is the low byte, 2 the high byte, 3 both; a write by any other lanes is refused.
    pub lanes: u8,
    pub value: u16,
}

impl Store {
    /// A write of the value to the lanes of a word.
    pub fn new(word: u32, lanes: u8, value: u16) -> Store
        ensures { result ≡ record { word = word; lanes = lanes; value = value } }
    {
        Store { word, lanes, value }
    }

    /// The old word once the lanes of this write are replaced in it.
    #[tactic(auto, using(crate::proofs::Checking::lanes_replace_bytes))]
    pub fn over(self, old: u16) -> u16
        ensures value { result ≡ merged self.lanes old self.value }
        ensures law { LanesReplaceBytes }
    {
        let new = self.value;
        match self.lanes {
            1 => old / 256 * 256 + new % 256,
            2 => new / 256 * 256 + old % 256,
            3 => new,
            _ => old,
        }
    }
}

/// Refuses a word or a line past the end, on the floor given.
pub fn check_range(place: u32, end: u32, floor: u8) -> Result<(), Fault>
    ensures { result ≡ within place end floor }
{
    if place < end {
        Ok(())
    } else {
        Err(Fault {
            refusal: Refusal::PastEnd,
            place,
            floor,
        })
    }
}

/// Refuses a write past the end, and then one of no known lanes.
#[tactic(auto, using(crate::proofs::Checking::refused_in_order))]
pub fn check_write(write: Store, end: u32, floor: u8) -> Result<(), Fault>
    ensures value { result ≡ writable write.word write.lanes end floor }
    ensures law { RefusedInOrder }
{
    let refusal = if write.word >= end {
        Refusal::PastEnd
    } else if 1 <= write.lanes && write.lanes <= 3 {
        return Ok(());
    } else {
        Refusal::BadLanes
    };
    // One place for both, so that a write that is taken needs no floor.
    Err(Fault {
        refusal,
        place: write.word,
        floor,
    })
}

/// A memory port. Banks, maps, buffers and caches are ports, and a board stands on any of them.
pub trait Port {
    // What the port means. Whatever a port keeps true of itself, so that this holds, is in its type: no call asks for it.
    ghost state: { Self → State };

    // What a call does to the whole of the port: to its own parts exactly, and by which calls to the ports below it.
    ghost does: { Self → Step → Self → Type 0 };

    /// How many words there are.
    fn words(&self) -> u32
        ensures { result ≡ (state self.now).facts.words };

    /// How high the port stands in its pile: 0 for a bank, one more for each map or stage over it, up to 255.
    fn floor(&self) -> u8
        ensures { result ≡ (state self.now).facts.floor };

    /// Whether a line may be cached, and whether it is protected.
    fn marks(&self, line: u32) -> Result<(bool, bool), Fault>
        ensures { result ≡ marks_answer (state self.now) line };

    /// How many writes wait, as far as a `u32` counts.
    fn waiting(&self) -> u32
        ensures { result ≡ waiting_answer (state self.now) };

    /// The word as the processor sees it; some waiting writes may settle.
    fn read(&mut self, word: u32) -> Result<u16, Fault>
        ensures value { result ≡ read_answer (state self.old) word }
        ensures after { Settles (state self.old) (state self.new) }
        ensures kept { Kept result self.old self.new }
        ensures did { does self.old (reads word result) self.new };

    /// A processor write: it joins the waiting line, and then some may settle.
    fn write(&mut self, write: Store) -> Result<(), Fault>
        ensures value { result ≡ write_answer (state self.old) write }
        ensures after { ByAnswer result (Settles (posted (write ∷ []) (state self.old)) (state self.new)) (self.new ≡ self.old) }
        ensures did { does self.old (writes write result) self.new };

    /// Some waiting writes settle, at least one if any waits.
    fn advance(&mut self)
        ensures after { Advances (state self.old) (state self.new) }
        ensures did { does self.old advances self.new };

    /// The word of settled memory.
    fn settled_read(&self, word: u32) -> Result<u16, Fault>
        ensures { result ≡ settled_answer (state self.now) word };

    /// A write by another master: settled memory changes at once, and the waiting line does not.
    fn outside_write(&mut self, write: Store) -> Result<(), Fault>
        ensures value { result ≡ write_answer (state self.old) write }
        ensures after { ByAnswer result (state self.new ≡ outside write (state self.old)) (self.new ≡ self.old) }
        ensures did { does self.old (outsides write result) self.new };

    /// Tells the stages that another master has written a word.
    fn snoop(&mut self, word: u32) -> Result<(), Fault>
        ensures value { result ≡ snoop_answer (state self.old) word }
        ensures after { ByAnswer result (state self.new ≡ state self.old) (self.new ≡ self.old) }
        ensures did { does self.old (snoops word result) self.new };

    /// Tells the stages to forget what they have cached.
    fn flush(&mut self)
        ensures after { state self.new ≡ state self.old }
        ensures did { does self.old flushes self.new };

    // Below the calls stands what each port proves of itself.
    ghost whole: { (p : Self) → WholeLines (state p).facts.words };
}

/// Refuses a word past the end, on the floor of a stage over the port.
#[tactic(auto, using(crate::proofs::Checking::counts_stop, crate::proofs::Checking::stages_show_the_port_below))]
pub fn check_above<P: Port>(below: &P, word: u32) -> Result<(), Fault>
    ensures value { result ≡ snoop_answer (raised (P.state below.now)) word }
    ensures passed { OnOk result (InRange (P.state below.now) word) }
    ensures law { CountsStop }
    ensures shows { StagesShowThePortBelow }
{
    check_range(word, below.words(), below.floor().saturating_add(1))
}

/// Refuses a write past the end, and then one of no known lanes, on the floor of a stage over the port.
pub fn check_store_above<P: Port>(below: &P, write: Store) -> Result<(), Fault>
    ensures value { result ≡ write_answer (raised (P.state below.now)) write }
    ensures passed { OnOk result (Writable (P.state below.now) write.word write.lanes) }
{
    check_write(write, below.words(), below.floor().saturating_add(1))
}

/// The marks of a line of the port, asked of a stage over it: a line past the end is refused on the stage's floor.
pub fn marks_above<P: Port>(below: &P, line: u32) -> Result<(bool, bool), Fault>
    ensures { result ≡ marks_answer (raised (P.state below.now)) line }
{
    check_range(line, below.words() / 8, below.floor().saturating_add(1))?;
    below.marks(line)
}

/// Advances a port until none of its writes waits.
pub fn settle_all<P: Port>(port: &mut P)
    ensures after { P.state port.new ≡ drained (P.state port.old) }
    ensures did { Drains P.state P.does port.old port.new }
    ensures law { SettlingIsNeverSeen }
{
    while port.waiting() > 0 {
        port.advance();
    }
}

/// A write that has settled, with all that waited before it, when the call returns.
#[tactic(auto, using(crate::proofs::Settling::marks_and_flags_stay, crate::proofs::Checking::each_call_counts))]
pub fn write_through<P: Port>(port: &mut P, write: Store) -> Result<(), Fault>
    ensures value { result ≡ write_answer (P.state port.old) write }
    ensures after { ByAnswer result (P.state port.new ≡ drained (posted (write ∷ []) (P.state port.old))) (port.new ≡ port.old) }
    ensures did { Through P.state P.does write result port.old port.new }
    ensures law { MarksAndFlagsStay }
    ensures counts { EachCallCounts }
{
    port.write(write)?;
    settle_all(port);
    Ok(())
}
