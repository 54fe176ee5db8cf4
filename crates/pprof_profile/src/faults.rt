//! Why bytes are no profile, and what is handed back with the fault.

ghost use Rattle.std.specs.Prelude.{◌≡◌};
ghost use Rattle.pprof_profile.specs.declared.faults.ProfileFault.TheVariants.{NoMemory, Wire};

use pprof_wire::{NoMemory, WireFault};
use std::alloc::{AllocError, AllocFailed};
use thiserror::Error;

/// Why bytes are no profile, or a draft is not valid.
#[derive(Clone, Copy, Debug, PartialEq, Eq, Error)]
pub enum ProfileFault {
    /// The bytes begin as those of gzip: the profile is to be unpacked first.
    #[error("P1 Gzip")]
    Gzip,
    /// The bytes are no list of fields, or a field has a wire type that its number cannot have.
    #[error("P2 Wire {0}")]
    Wire(WireFault),
    /// A text is not UTF-8.
    #[error("P3 NotUtf8")]
    NotUtf8,
    /// There is no string at all.
    #[error("P4 NoStrings")]
    NoStrings,
    /// The first string is not empty.
    #[error("P5 FirstString")]
    FirstString,
    /// An index into the strings is negative, or not below their number.
    #[error("P6 StringIndex")]
    StringIndex,
    /// A mapping, a location or a function has the id 0.
    #[error("P7 ZeroId")]
    ZeroId,
    /// Two mappings, two locations or two functions have one id.
    #[error("P8 DoubleId")]
    DoubleId,
    /// A sample names a location that is not there.
    #[error("P9 NoLocation")]
    NoLocation,
    /// A location names a mapping that is not there.
    #[error("P10 NoMapping")]
    NoMapping,
    /// A line names a function that is not there.
    #[error("P11 NoFunction")]
    NoFunction,
    /// A sample has another number of values than there are sample types.
    #[error("P12 ValueCount")]
    ValueCount,
    /// Memory ran out.
    #[error("P13 NoMemory")]
    NoMemory,
}

impl From<WireFault> for ProfileFault {
    ghost from_gives = { λ fault outcome. outcome ≡ Wire fault };

    fn from(fault: WireFault) -> ProfileFault {
        ProfileFault::Wire(fault)
    }
}

impl From<NoMemory> for ProfileFault {
    ghost from_gives = { λ _ outcome. outcome ≡ NoMemory };

    fn from(_refused: NoMemory) -> ProfileFault {
        ProfileFault::NoMemory
    }
}

impl From<AllocError> for ProfileFault {
    ghost from_gives = { λ _ outcome. outcome ≡ NoMemory };

    fn from(_refused: AllocError) -> ProfileFault {
        ProfileFault::NoMemory
    }
}

impl<T: Drop> From<AllocFailed<T>> for ProfileFault {
    ghost from_gives = { λ _ outcome. outcome ≡ NoMemory };

    fn from(_refused: AllocFailed<T>) -> ProfileFault {
        ProfileFault::NoMemory
    }
}

/// A fault, and the value that was refused. As an error it prints the fault alone.
#[derive(Debug, Drop, Error)]
#[error("{fault}")]
pub struct Refused<T> {
    pub fault: ProfileFault,
    pub back: T,
}

impl<T: Drop> From<Refused<T>> for ProfileFault {
    ghost from_gives = { λ refused outcome. outcome ≡ refused.fault };

    fn from(refused: Refused<T>) -> ProfileFault {
        refused.fault
    }
}
