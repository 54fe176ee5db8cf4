//! What `live` writes of a batch: its reports out of a store to which several threads added its rows, once the logs of
//! all were audited.
#![tactic(auto)]

mod dealing;
mod fault;
mod progress;
mod storing;
mod texts;

pub use fault::LiveFault;
pub use flame_words::LiveOptions;
pub use live_store::{BookFault, MakeFault, SessionFault};
pub use log_audit::AuditFault;
pub use progress::{NoProgress, Progress};
pub use texts::live_text;
