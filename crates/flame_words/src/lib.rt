//! The words of the program `flame` as a request: what they ask for, or why they ask for nothing.
#![tactic(auto)]

mod command;
mod live_options;
mod options;
mod request;
mod words;

pub use live_options::LiveOptions;
pub use request::{Format, Request, Source};
pub use words::{WordsFault, read_words};
