//! Why a list gives no calls, or a card runs none.
ghost use Rattle.std.specs.Prelude.{◌≡◌};
ghost use Rattle.calls.specs.declared.error.Stop.TheVariants.{Refused, Memory};

use fault::Fault;
use std::alloc::AllocFailed;

/// Why a list gives no calls, or a card runs none: they are refused, or there is no memory, which is no refusal and has no number.
#[derive(Clone, Copy, Debug, PartialEq)]
pub enum Stop {
    Refused(Fault),
    Memory,
}

impl From<Fault> for Stop {
    ghost from_gives = { λ fault r. r ≡ Refused fault };

    fn from(fault: Fault) -> Stop {
        Stop::Refused(fault)
    }
}

impl<T: Drop> From<AllocFailed<T>> for Stop {
    ghost from_gives = { λ _ r. r ≡ Memory };

    fn from(_: AllocFailed<T>) -> Stop {
        Stop::Memory
    }
}
