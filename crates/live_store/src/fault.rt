//! Why a store isn't made, gives no session, or no worker starts.

use std::alloc::AllocError;
use thiserror::Error;

/// Why no store is made.
#[derive(Clone, Copy, Debug, PartialEq, Eq, Error)]
pub enum MakeFault {
    /// The number of sessions isn't 1 to 64.
    #[error("S1 Sessions")]
    Sessions,
    /// There is no memory for the places of versions and their readers.
    #[error("S2 Place")]
    Place,
    /// Memory ran out.
    #[error("S3 NoMemory")]
    NoMemory,
}

/// Why a store gives no session.
#[derive(Clone, Copy, Debug, PartialEq, Eq, Error)]
pub enum SessionFault {
    /// All sessions were given.
    #[error("N1 AllGiven")]
    AllGiven,
    /// No place for a reader of versions is free.
    #[error("N2 Place")]
    Place,
    /// Memory ran out.
    #[error("N3 NoMemory")]
    NoMemory,
}

/// Why no worker is started.
#[derive(Clone, Copy, Debug, PartialEq, Eq, Error)]
pub enum WorkersFault {
    /// The store gave no session for the list of this number.
    #[error("G1 Session worker {worker} fault {fault}")]
    Session { worker: usize, fault: SessionFault },
    /// Memory ran out.
    #[error("G2 NoMemory")]
    NoMemory,
}

impl From<AllocError> for WorkersFault {
    ghost use Rattle.std.specs.Prelude.{◌≡◌};
    ghost use Rattle.live_store.specs.declared.fault.WorkersFault.TheVariants as fault;

    ghost from_gives = { λ _ given. given ≡ fault.NoMemory };

    fn from(_error: AllocError) -> WorkersFault {
        WorkersFault::NoMemory
    }
}
