//! Why something was not made.
ghost use Rattle.std.specs.Prelude.{◌≡◌};
ghost use Rattle.refusal.specs.declared.fault.Fault.TheVariants.{Refused as Declined, Memory};

use crate::Refusal;
use std::alloc::{AllocError, AllocFailed};

/// Why something was not made.
#[derive(Clone, Copy, PartialEq, Eq, Debug)]
pub enum Fault {
    /// What was asked is declined.
    Refused(Refusal),
    /// Memory is wanting.
    Memory,
}

/// Want of memory ends the making.
impl From<AllocError> for Fault {
    ghost from_gives = { λ _ r. r ≡ Memory };

    fn from(_e: AllocError) -> Fault {
        Fault::Memory
    }
}

/// Want of memory ends the making, whatever was to be stored.
impl<T: Drop> From<AllocFailed<T>> for Fault {
    ghost from_gives = { λ _ r. r ≡ Memory };

    fn from(_e: AllocFailed<T>) -> Fault {
        Fault::Memory
    }
}

/// A refusal ends the making.
impl From<Refusal> for Fault {
    ghost from_gives = { λ e r. r ≡ Declined e };

    fn from(e: Refusal) -> Fault {
        Fault::Refused(e)
    }
}
