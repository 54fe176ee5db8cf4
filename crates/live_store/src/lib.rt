//! A profile store of many threads: a book behind a lock, versions of its tree that need none, and a session for each
//! thread, which keeps a log of its receipts and knows which changes it has seen.
#![tactic(auto)]

mod blank;
mod fault;
mod locked_book;
mod session;
mod store;
mod told;
mod workers;

pub use blank::Blank;
pub use fault::{MakeFault, SessionFault, WorkersFault};
pub use op_book::{BookFault, MAX_SESSIONS, Refused};
pub use session::Session;
pub use shown_versions::StoreName;
pub use store::Store;
pub use told::{Placed, Told, Window};
pub use workers::{Cause, FinishedWorker, Gate, Stop, Ungated, run_workers};
