//! Why a book refuses a change.

use flame_report::NoMemory;
use std::alloc::{AllocError, AllocFailed};
use thiserror::Error;

/// Why a book, or a session of a store, refuses an operation. A book tells the first cause in this order.
#[derive(Clone, Copy, Debug, PartialEq, Eq, Error)]
pub enum BookFault {
    /// The book has no session of this number.
    #[error("K1 Session")]
    Session,
    /// The turn isn't the number of entries that the session has, `held`.
    #[error("K2 Turn held {held}")]
    Turn { held: u64 },
    /// The journal has as many entries as it may have, `held`.
    #[error("K3 Full held {held}")]
    Full { held: u32 },
    /// The batch's rows haven't as many values as the book's, `held`, or the query names none of these.
    #[error("K6 Width held {held}")]
    Width { held: u32 },
    /// What counts so far weighs `held` by the value of this number, and passes [`profile_rows::MAX_TOTAL`]
    /// together with the batch; by no lower value it does.
    #[error("K4 Heavy value {value} held {held}")]
    Heavy { value: u32, held: u64 },
    /// Memory ran out.
    #[error("K5 NoMemory")]
    NoMemory,
    /// No version of the tree could be entered, or the one entered has fewer changes than were seen. No book answers
    /// it: a session does that asks a store for a report.
    #[error("K7 Version")]
    Version,
}

impl From<NoMemory> for BookFault {
    ghost use Rattle.std.specs.Prelude.{◌≡◌};
    ghost use Rattle.op_book.specs.declared.fault.BookFault.TheVariants as fault;

    ghost from_gives = { λ _ given. given ≡ fault.NoMemory };

    fn from(_error: NoMemory) -> BookFault {
        BookFault::NoMemory
    }
}

impl From<AllocError> for BookFault {
    ghost use Rattle.std.specs.Prelude.{◌≡◌};
    ghost use Rattle.op_book.specs.declared.fault.BookFault.TheVariants as fault;

    ghost from_gives = { λ _ given. given ≡ fault.NoMemory };

    fn from(_error: AllocError) -> BookFault {
        BookFault::NoMemory
    }
}

impl<T: Drop> From<AllocFailed<T>> for BookFault {
    ghost use Rattle.std.specs.Prelude.{◌≡◌};
    ghost use Rattle.op_book.specs.declared.fault.BookFault.TheVariants as fault;

    ghost from_gives = { λ _ given. given ≡ fault.NoMemory };

    fn from(_error: AllocFailed<T>) -> BookFault {
        BookFault::NoMemory
    }
}

/// A fault, and the value that was refused. As an error it prints the fault alone.
#[derive(Debug, Drop, Error)]
#[error("{fault}")]
pub struct Refused<T> {
    pub fault: BookFault,
    pub back: T,
}

impl<T: Drop> From<Refused<T>> for BookFault {
    ghost use Rattle.std.specs.Prelude.{◌≡◌};

    ghost from_gives = { λ refusal given. given ≡ refusal.fault };

    fn from(refused: Refused<T>) -> BookFault {
        refused.fault
    }
}
