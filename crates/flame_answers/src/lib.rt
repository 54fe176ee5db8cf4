//! The text that answers a query over an input, and the bytes of an export: what the program gives without a store.
#![tactic(auto)]

mod answers;
mod batches;
mod faults;

pub use answers::{export, report_on};
pub use batches::batch_in;
pub use faults::{AnswerFault, InputFault};
pub use flame_words::{Format, Source};
pub use folded_text::FoldedFault;
pub use pprof_profile::{ProfileFault, WireFault};
pub use profile_samples::BatchFault;
