//! Why `live` has nothing to write.

ghost use Rattle.std.specs.Prelude.{◌≡◌};
ghost use Rattle.live_report.specs.Faults.{is_shortage};

use live_store::{BookFault, MakeFault, SessionFault, WorkersFault};
use log_audit::AuditFault;
use profile_rows::NoMemory;
use std::alloc::{AllocError, AllocFailed};
use thiserror::Error;

/// Why the rows couldn't be stored, or what they were answered couldn't be confirmed.
#[derive(Clone, Copy, Debug, PartialEq, Eq, Error)]
pub enum LiveFault {
    /// A thread couldn't be started.
    #[error("E5 Start")]
    Start,
    /// No store could be made.
    #[error("{0}")]
    Make(MakeFault),
    /// The store gave no session.
    #[error("{0}")]
    Session(SessionFault),
    /// The store refused an operation.
    #[error("{0}")]
    Book(BookFault),
    /// The logs don't match the journal.
    #[error("{0}")]
    Audit(AuditFault),
    /// The reset of the warm start isn't the store's second change.
    #[error("E6 Warm")]
    Warm,
    /// Memory ran out.
    #[error("E4 NoMemory")]
    NoMemory,
}

impl LiveFault {
    /// Whether memory, a place for versions or their readers, or a thread was missing: nothing was refused.
    pub fn is_shortage(self) -> bool
        ensures { result ≡ is_shortage self }
    {
        match self {
            LiveFault::Start | LiveFault::NoMemory => true,
            LiveFault::Make(fault) => !matches!(fault, MakeFault::Sessions),
            LiveFault::Session(fault) => !matches!(fault, SessionFault::AllGiven),
            LiveFault::Book(fault) => matches!(fault, BookFault::NoMemory | BookFault::Version),
            LiveFault::Audit(_) | LiveFault::Warm => false,
        }
    }
}

impl From<NoMemory> for LiveFault {
    ghost use Rattle.std.specs.Prelude.{◌≡◌};
    ghost use Rattle.live_report.specs.declared.fault.LiveFault.TheVariants as live;

    ghost from_gives = { λ _ given. given ≡ live.NoMemory };

    fn from(_error: NoMemory) -> LiveFault {
        LiveFault::NoMemory
    }
}

impl From<AllocError> for LiveFault {
    ghost use Rattle.std.specs.Prelude.{◌≡◌};
    ghost use Rattle.live_report.specs.declared.fault.LiveFault.TheVariants as live;

    ghost from_gives = { λ _ given. given ≡ live.NoMemory };

    fn from(_error: AllocError) -> LiveFault {
        LiveFault::NoMemory
    }
}

impl<T: Drop> From<AllocFailed<T>> for LiveFault {
    ghost use Rattle.std.specs.Prelude.{◌≡◌};
    ghost use Rattle.live_report.specs.declared.fault.LiveFault.TheVariants as live;

    ghost from_gives = { λ _ given. given ≡ live.NoMemory };

    fn from(_error: AllocFailed<T>) -> LiveFault {
        LiveFault::NoMemory
    }
}

impl From<SessionFault> for LiveFault {
    ghost use Rattle.std.specs.Prelude.{◌≡◌};
    ghost use Rattle.live_report.specs.Faults.{fault_of_session};

    ghost from_gives = { λ fault given. given ≡ fault_of_session fault };

    fn from(fault: SessionFault) -> LiveFault {
        match fault {
            SessionFault::NoMemory => LiveFault::NoMemory,
            _ => LiveFault::Session(fault),
        }
    }
}

impl From<MakeFault> for LiveFault {
    ghost use Rattle.std.specs.Prelude.{◌≡◌};
    ghost use Rattle.live_report.specs.Faults.{fault_of_make};

    ghost from_gives = { λ fault given. given ≡ fault_of_make fault };

    fn from(fault: MakeFault) -> LiveFault {
        match fault {
            MakeFault::NoMemory => LiveFault::NoMemory,
            _ => LiveFault::Make(fault),
        }
    }
}

impl From<BookFault> for LiveFault {
    ghost use Rattle.std.specs.Prelude.{◌≡◌};
    ghost use Rattle.live_report.specs.Faults.{fault_of_book};

    ghost from_gives = { λ fault given. given ≡ fault_of_book fault };

    fn from(fault: BookFault) -> LiveFault {
        match fault {
            BookFault::NoMemory => LiveFault::NoMemory,
            _ => LiveFault::Book(fault),
        }
    }
}

impl From<AuditFault> for LiveFault {
    ghost use Rattle.std.specs.Prelude.{◌≡◌};
    ghost use Rattle.live_report.specs.Faults.{fault_of_audit};

    ghost from_gives = { λ fault given. given ≡ fault_of_audit fault };

    fn from(fault: AuditFault) -> LiveFault {
        match fault {
            AuditFault::NoMemory => LiveFault::NoMemory,
            _ => LiveFault::Audit(fault),
        }
    }
}

impl From<WorkersFault> for LiveFault {
    ghost use Rattle.std.specs.Prelude.{◌≡◌};
    ghost use Rattle.live_report.specs.Faults.{fault_of_workers};

    ghost from_gives = { λ fault given. given ≡ fault_of_workers fault };

    fn from(fault: WorkersFault) -> LiveFault {
        match fault {
            WorkersFault::Session { worker: _, fault } => LiveFault::from(fault),
            WorkersFault::NoMemory => LiveFault::NoMemory,
        }
    }
}
