//! The fourteen calls of a board.
ghost use Rattle.std.specs.Prelude.{◌≡◌, Some};
ghost use Rattle.calls.specs.Calls.{cargo_of, name_of, size_of};

use port::Store;
use std::fmt;

/// A call of the board, with what it carries.
#[derive(Clone, Copy, Debug, PartialEq)]
pub enum Call {
    Read(u32),
    Write(Store),
    Unposted(Store),
    Advance,
    Lock,
    LockedRead(u32),
    LockedWrite(Store),
    Unlock,
    Ask,
    MasterRead(u32),
    MasterWrite(Store),
    Give,
    Snoop(u32),
    Flush,
}

/// What a call carries besides its kind.
#[derive(Clone, Copy, Debug, PartialEq)]
pub enum Cargo {
    Nothing,
    Word(u32),
    Store(Store),
}

impl Call {
    /// The name by which the call is printed.
    pub fn name(self) -> &'static str
        ensures { result.now ≡ name_of self }
    {
        match self {
            Call::Read(_) => "read",
            Call::Write(_) => "write",
            Call::Unposted(_) => "unposted",
            Call::Advance => "advance",
            Call::Lock => "lock",
            Call::LockedRead(_) => "locked-read",
            Call::LockedWrite(_) => "locked-write",
            Call::Unlock => "unlock",
            Call::Ask => "ask",
            Call::MasterRead(_) => "master-read",
            Call::MasterWrite(_) => "master-write",
            Call::Give => "give",
            Call::Snoop(_) => "snoop",
            Call::Flush => "flush",
        }
    }

    /// What the call carries.
    pub fn cargo(self) -> Cargo
        ensures { result ≡ cargo_of self }
    {
        match self {
            Call::Read(word)
            | Call::LockedRead(word)
            | Call::MasterRead(word)
            | Call::Snoop(word) => Cargo::Word(word),
            Call::Write(write)
            | Call::Unposted(write)
            | Call::LockedWrite(write)
            | Call::MasterWrite(write) => Cargo::Store(write),
            Call::Advance | Call::Lock | Call::Unlock | Call::Ask | Call::Give | Call::Flush =>
                Cargo::Nothing,
        }
    }

    /// How many list words the call takes: a store has a data word besides its own.
    pub fn size(self) -> u32
        ensures { result ≡ size_of self }
    {
        match self.cargo() {
            Cargo::Nothing | Cargo::Word(_) => 1,
            Cargo::Store(_) => 2,
        }
    }
}

impl fmt::Display for Call {
    ghost output = { λ call. Some (name_of call) };

    fn fmt<W: fmt::Write>(&self, f: &mut fmt::Formatter<W>) -> fmt::Result {
        let name = self.name();
        write!(f, "{name}")
    }
}
