//! The auditor: whether the logs of sessions match a journal, and if they do one order of all their operations in which
//! each was answered as the plain profile answers it.
#![tactic(auto)]

mod auditing;
mod fault;
pub mod laws;
mod receipts;
mod replay;
mod replay_state;
mod run;

pub use auditing::{audit, audit_with};
pub use fault::AuditFault;
pub use run::{Run, RunStep};
