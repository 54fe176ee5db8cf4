//! Why an audit refuses logs.

use op_book::NoMemory;
use std::alloc::AllocError;
use thiserror::Error;

/// Why an audit refuses logs. The first cause in this order is told, and within one the first log, and there the lowest
/// index.
#[derive(Clone, Copy, Debug, PartialEq, Eq, Error)]
pub enum AuditFault {
    /// An earlier log is of the same session.
    #[error("A1 TwoLogs session {session}")]
    TwoLogs { session: u32 },
    /// The journal has no such session; or it hasn't this change at its place as this session's, or with another reply;
    /// or the report is over more changes than it has, or by a value that it hasn't.
    #[error("A2 Stranger session {session} index {index}")]
    Stranger { session: u32, index: u64 },
    /// The receipt can't stand after the one before it: a run has it earlier, or it is a change at the same place.
    #[error("A3 Order session {session} index {index}")]
    Order { session: u32, index: u64 },
    /// No log has a receipt of the journal's entry.
    #[error("A4 Missing entry {entry}")]
    Missing { entry: u64 },
    /// A report's answer isn't the plain answer after as many changes as it says.
    #[error("A5 WrongAnswer session {session} index {index}")]
    WrongAnswer { session: u32, index: u64 },
    /// Memory ran out.
    #[error("A6 NoMemory")]
    NoMemory,
}

impl From<NoMemory> for AuditFault {
    ghost use Rattle.std.specs.Prelude.{◌≡◌};
    ghost use Rattle.log_audit.specs.declared.fault.AuditFault.TheVariants as fault;

    ghost from_gives = { λ _ given. given ≡ fault.NoMemory };

    fn from(_error: NoMemory) -> AuditFault {
        AuditFault::NoMemory
    }
}

impl From<AllocError> for AuditFault {
    ghost use Rattle.std.specs.Prelude.{◌≡◌};
    ghost use Rattle.log_audit.specs.declared.fault.AuditFault.TheVariants as fault;

    ghost from_gives = { λ _ given. given ≡ fault.NoMemory };

    fn from(_error: AllocError) -> AuditFault {
        AuditFault::NoMemory
    }
}
