//! The board and its calls.
ghost use Rattle.std.specs.Prelude.{◌≡◌, Err};
ghost use Rattle.calls.specs.declared.call.Call.TheVariants.{Lock as Locks, LockedRead, LockedWrite, Unlock as Unlocks, Ask as Asks, MasterRead, MasterWrite, Give as Gives};
ghost use Rattle.calls.specs.Calls.{cargo_of};
ghost use Rattle.port.specs.Memory.{drained, floor_above};
ghost use Rattle.port.specs.Meaning.{read_answer, settled_answer, marks_answer, waiting_answer};
ghost use Rattle.port.specs.Steps.{Drains};
ghost use Rattle.book.specs.declared.answer.Mode.TheVariants.{Free};
ghost use Rattle.book.specs.Tables.{stop, place_in};
ghost use Rattle.book.specs.Promise.{EachCallAsksThePort, CycleKeepsTheMode};
ghost use Rattle.book.specs.Calling.{as_done, as_word, Reaches, Called, cycle_answer};

use book::{Answer, Mode};
use calls::{Call, Cargo};
use fault::{Fault, Refusal};
use port::{Port, Store, settle_all, write_through};

/// The right to make locked calls: handed out by `lock`, spent by `unlock`.
pub struct Lock {
    mark: (),
}

/// The right to make master calls: handed out by `ask`, spent by `give`.
pub struct Grant {
    mark: (),
}

/// A port that only the board reaches, and the mode the board is in.
#[derive(Drop)]
pub struct Board<P: Port> {
    port: P,
    mode: Mode,
}

fn place_of(call: Call) -> u32
    ensures { result ≡ place_in (cargo_of call) }
{
    match call.cargo() {
        Cargo::Nothing => 0,
        Cargo::Word(word) => word,
        Cargo::Store(write) => write.word,
    }
}

impl<P: Port> Board<P> {
    /// A free board on a port, in which nothing waits any more.
    #[tactic(auto, using(book::proofs::Modes::each_call_asks_the_port))]
    pub fn new(port: P) -> Board<P>
        ensures mode { result.mode ≡ Free }
        ensures settled { P.state result.port ≡ drained (P.state port) }
        ensures did { Drains P.state P.does port result.port }
        ensures law { EachCallAsksThePort P.Port }
    {
        let mut port = port;
        settle_all(&mut port);
        Board {
            port,
            mode: Mode::Free,
        }
    }

    /// How many words the port has.
    pub fn words(&self) -> u32
        ensures { result ≡ (P.state self.now.port).facts.words }
    {
        self.port.words()
    }

    /// Whether a line may be cached, and whether it is protected.
    pub fn marks(&self, line: u32) -> Result<(bool, bool), Fault>
        ensures { result ≡ marks_answer (P.state self.now.port) line }
    {
        self.port.marks(line)
    }

    /// How many writes wait, as far as a `u32` counts.
    pub fn waiting(&self) -> u32
        ensures { result ≡ waiting_answer (P.state self.now.port) }
    {
        self.port.waiting()
    }

    /// One more than the port's floor, up to 255.
    pub fn floor(&self) -> u8
        ensures { result ≡ floor_above (P.state self.now.port).facts.floor }
    {
        self.port.floor().saturating_add(1)
    }

    /// The port, to be looked at.
    pub fn port(&self) -> &P
        ensures { result.now ≡ self.now.port }
    {
        &self.port
    }

    /// The port as the board leaves it.
    // Kept apart: compiled together with a caller's own moves of a whole cache, it kept the compiler busy for more than twenty minutes.
    #[inline(never)]
    pub fn into_port(self) -> P
        ensures { result ≡ self.port }
    {
        let Board { port, mode: _ } = self;
        port
    }

    // The answer to a call that the mode turns down.
    fn refuse(&self, refusal: Refusal, call: Call) -> Result<Answer, Fault>
        ensures { result ≡ Err (record { refusal = refusal; place = place_in (cargo_of call); floor = floor_above (P.state self.now.port).facts.floor }) }
    {
        Err(Fault {
            refusal,
            place: place_of(call),
            floor: self.floor(),
        })
    }

    /// Makes a call without tokens. The mode and the call together decide what is done.
    pub fn call(&mut self, call: Call) -> Result<Answer, Fault>
        ensures called { Called P.Port self.old.mode self.old.port call result self.new.mode self.new.port }
    {
        // The mode and the call together decide: a row for each that is taken, and then the refusals.
        match (call, self.mode) {
            (Call::Read(word), Mode::Free | Mode::Granted) => {
                Ok(Answer::Word(self.port.read(word)?))
            }
            (Call::Write(write), Mode::Free | Mode::Granted) => {
                self.port.write(write)?;
                Ok(Answer::Done)
            }
            (Call::Unposted(write), Mode::Free | Mode::Granted) => {
                write_through(&mut self.port, write)?;
                Ok(Answer::Done)
            }
            (Call::LockedWrite(write), Mode::Locked) => {
                write_through(&mut self.port, write)?;
                Ok(Answer::Done)
            }
            (Call::LockedRead(word), Mode::Locked) | (Call::MasterRead(word), Mode::Granted) => {
                Ok(Answer::Word(self.port.settled_read(word)?))
            }
            (Call::MasterWrite(write), Mode::Granted) => {
                self.port.outside_write(write)?;
                Ok(Answer::Done)
            }
            (Call::Lock, Mode::Free) => {
                settle_all(&mut self.port);
                self.mode = Mode::Locked;
                Ok(Answer::Done)
            }
            (Call::Ask, Mode::Free) => {
                self.mode = Mode::Granted;
                Ok(Answer::Done)
            }
            (Call::Unlock, Mode::Locked) | (Call::Give, Mode::Granted) => {
                self.mode = Mode::Free;
                Ok(Answer::Done)
            }
            (Call::Advance, _) => {
                self.port.advance();
                Ok(Answer::Done)
            }
            (Call::Snoop(word), _) => {
                self.port.snoop(word)?;
                Ok(Answer::Done)
            }
            (Call::Flush, _) => {
                self.port.flush();
                Ok(Answer::Done)
            }
            (Call::LockedRead(_) | Call::LockedWrite(_) | Call::Unlock, _) => self.refuse(
                Refusal::NotLocked,
                call,
            ),
            (Call::MasterRead(_) | Call::MasterWrite(_) | Call::Give, _) => self.refuse(
                Refusal::NotGranted,
                call,
            ),
            (_, Mode::Locked) => self.refuse(Refusal::Locked, call),
            _ => self.refuse(Refusal::Granted, call),
        }
    }

    /// Locks the board, once nothing waits, and hands out its lock.
    pub fn lock(&mut self) -> Result<Lock, Fault>
        ensures called { Called P.Port self.old.mode self.old.port Locks (as_done result) self.new.mode self.new.port }
    {
        self.call(Call::Lock)?;
        Ok(Lock { mark: () })
    }

    /// Unlocks the board. The lock is spent, even where the board turns out not to be locked.
    pub fn unlock(&mut self, lock: Lock) -> Result<(), Fault>
        ensures called { Called P.Port self.old.mode self.old.port Unlocks (as_done result) self.new.mode self.new.port }
    {
        let Lock { mark: () } = lock;
        self.call(Call::Unlock)?;
        Ok(())
    }

    /// The settled word, for the holder of the lock.
    pub fn locked_read(&mut self, _lock: &Lock, word: u32) -> Result<u16, Fault>
        ensures called { Called P.Port self.old.mode self.old.port (LockedRead word) (as_word result) self.new.mode self.new.port }
    {
        match self.call(Call::LockedRead(word))? {
            Answer::Word(value) => Ok(value),
            Answer::Done => unreachable!("a read that is taken answers a word"),
        }
    }

    /// A write by the holder of the lock, which has settled when the call returns.
    pub fn locked_write(&mut self, _lock: &Lock, write: Store) -> Result<(), Fault>
        ensures called { Called P.Port self.old.mode self.old.port (LockedWrite write) (as_done result) self.new.mode self.new.port }
    {
        self.call(Call::LockedWrite(write))?;
        Ok(())
    }

    /// Grants the board to the display unit, and hands out the grant.
    pub fn ask(&mut self) -> Result<Grant, Fault>
        ensures called { Called P.Port self.old.mode self.old.port Asks (as_done result) self.new.mode self.new.port }
    {
        self.call(Call::Ask)?;
        Ok(Grant { mark: () })
    }

    /// Ends the grant. It is spent, even where the board turns out not to be granted.
    pub fn give(&mut self, grant: Grant) -> Result<(), Fault>
        ensures called { Called P.Port self.old.mode self.old.port Gives (as_done result) self.new.mode self.new.port }
    {
        let Grant { mark: () } = grant;
        self.call(Call::Give)?;
        Ok(())
    }

    /// The settled word, for the holder of the grant.
    pub fn master_read(&mut self, _grant: &Grant, word: u32) -> Result<u16, Fault>
        ensures called { Called P.Port self.old.mode self.old.port (MasterRead word) (as_word result) self.new.mode self.new.port }
    {
        match self.call(Call::MasterRead(word))? {
            Answer::Word(value) => Ok(value),
            Answer::Done => unreachable!("a read that is taken answers a word"),
        }
    }

    /// A write by the holder of the grant, which goes past the waiting line.
    pub fn master_write(&mut self, _grant: &Grant, write: Store) -> Result<(), Fault>
        ensures called { Called P.Port self.old.mode self.old.port (MasterWrite write) (as_done result) self.new.mode self.new.port }
    {
        self.call(Call::MasterWrite(write))?;
        Ok(())
    }

    /// The word as the processor sees it, once all that waits has settled. It is read under a lock of its own, which is given back
    /// whatever the read answers; where the board refuses that lock, nothing changes.
    #[tactic(auto, using(book::proofs::Cycles::lock_settles, book::proofs::Modes::cycle_keeps_the_mode))]
    pub fn locked_cycle(&mut self, word: u32) -> Result<u16, Fault>
        ensures value { result ≡ cycle_answer (stop self.old.mode Locks) (P.state self.old.port).facts.floor Locks (read_answer (P.state self.old.port) word) }
        ensures after { Reaches (stop self.old.mode Locks) (P.state self.new.port ≡ drained (P.state self.old.port)) (self.new.port ≡ self.old.port) }
        ensures did { Reaches (stop self.old.mode Locks) (Drains P.state P.does self.old.port self.new.port) (self.new.port ≡ self.old.port) }
        ensures mode { self.new.mode ≡ self.old.mode }
        ensures law { CycleKeepsTheMode self.old.mode Locks (P.state self.old.port).facts.floor (read_answer (P.state self.old.port) word) result }
    {
        let lock = self.lock()?;
        let value = self.locked_read(&lock, word);
        self.unlock(lock)?;
        value
    }

    /// The settled word, read under a grant of its own, which is given back whatever the read answers. The port stays as it is.
    #[tactic(auto, using(book::proofs::Modes::cycle_keeps_the_mode))]
    pub fn master_cycle(&mut self, word: u32) -> Result<u16, Fault>
        ensures value { result ≡ cycle_answer (stop self.old.mode Asks) (P.state self.old.port).facts.floor Asks (settled_answer (P.state self.old.port) word) }
        ensures after { self.new.port ≡ self.old.port }
        ensures mode { self.new.mode ≡ self.old.mode }
        ensures law { CycleKeepsTheMode self.old.mode Asks (P.state self.old.port).facts.floor (settled_answer (P.state self.old.port) word) result }
    {
        let grant = self.ask()?;
        let value = self.master_read(&grant, word);
        self.give(grant)?;
        value
    }
}
