//! Why a call or a list was turned down, and where.
#![tactic(auto)]

ghost use Rattle.std.specs.Prelude.{◌≡◌, Some, decimal};
ghost use Rattle.fault.specs.Numbers.{number_of};
ghost use Rattle.fault.specs.Texts.{fault_text};

use std::fmt;

/// The reason for a refusal.
#[derive(Clone, Copy, Debug, PartialEq)]
pub enum Refusal {
    /// A word or a line past the end of the port, or a set or way that the directory lacks.
    PastEnd,
    /// Lanes that are not 1, 2 or 3.
    BadLanes,
    /// A word that cannot be read.
    Unreadable,
    /// The board is locked.
    Locked,
    /// The board is granted to the display unit.
    Granted,
    /// The board is not locked.
    NotLocked,
    /// The board is not granted.
    NotGranted,
    /// A bank or a map of unfit size.
    UnfitSize,
    /// A call list of unfit length.
    ListLength,
    /// A malformed word of a call list.
    ListWord,
}

/// The number by which a reason is printed and compared.
impl From<Refusal> for u8 {
    ghost from_gives = { λ refusal r. r ≡ number_of refusal };

    fn from(refusal: Refusal) -> u8 {
        match refusal {
            Refusal::PastEnd => 1,
            Refusal::BadLanes => 2,
            Refusal::Unreadable => 3,
            Refusal::Locked => 4,
            Refusal::Granted => 5,
            Refusal::NotLocked | Refusal::NotGranted => 6,
            Refusal::UnfitSize => 7,
            Refusal::ListLength => 8,
            Refusal::ListWord => 9,
        }
    }
}

impl fmt::Display for Refusal {
    ghost output = { λ refusal. Some (decimal (number_of refusal)) };

    fn fmt<W: fmt::Write>(&self, f: &mut fmt::Formatter<W>) -> fmt::Result {
        let number = u8::from(*self);
        write!(f, "{number}")
    }
}

/// A refusal with the place it is told at and the floor that told it.
#[derive(Clone, Copy, Debug, PartialEq)]
pub struct Fault {
    pub refusal: Refusal,
    /// A word, line or set number, the index of a list word, or 0: each refusal is printed with a place.
    pub place: u32,
    /// The floor of the part that refused: how high it stands in its pile. 0 is a bank, a list or a size question.
    pub floor: u8,
}

impl fmt::Display for Fault {
    ghost output = { λ fault. Some (fault_text fault) };

    fn fmt<W: fmt::Write>(&self, f: &mut fmt::Formatter<W>) -> fmt::Result {
        let refusal = self.refusal;
        let place = self.place;
        let floor = self.floor;
        write!(f, "refused {refusal} at {place} floor {floor}")
    }
}
