//! The program `flame` over any words, reader and writer, and over the process's own: the whole run.
//!
//! What a caller names stands here too: [`MAX_INPUT`], the greatest limit that [`run`] takes; the [`Request`] that
//! words ask for; and the faults that a [`ToolFault`] holds. An [`InputFault`] is one of folded text, of a profile or
//! of its samples, and a [`LiveFault`] one of a store that isn't made, of a session, of a change or of the audit.
#![tactic(auto)]

mod host;
mod outcomes;
mod process;
mod program;
mod requests;
mod shown_rows;
mod streams;

pub use flame_answers::{BatchFault, FoldedFault, InputFault, ProfileFault, WireFault};
pub use flame_words::{Request, WordsFault, read_words};
pub use host::run_on_host;
pub use live_report::{
    AuditFault, BookFault, LiveFault, MakeFault, NoProgress, Progress, SessionFault,
};
pub use outcomes::{Outcome, Status, ToolFault};
pub use process::{End, run_process};
pub use profile_rows::Hashing;
pub use program::run;
pub use requests::answer;
pub use streams::{MAX_INPUT, ReadFault, WriteFault, read_input, write_text};
