//! The journal of a profile store: each addition and each reset is one entry, with the reply that the plain profile
//! gives.
#![tactic(auto)]

mod book;
mod entry;
mod fault;
mod journal;
pub mod laws;
mod ledger;
mod operation;

pub use book::{Book, Change, MAX_SESSIONS, Ready};
pub use entry::{Entry, Receipt, SessionLog};
pub use fault::{BookFault, Refused};
pub use flame_report::NoMemory;
pub use journal::Journal;
pub use operation::{Op, Reply};
