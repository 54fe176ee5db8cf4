//! The program `collect`: sources are read as they come, a store takes what they bring, and the report of each window
//! of time becomes a file.
//!
//! A thread reads each source and cuts it at line ends. An adder takes the pieces of its sources in their order, and
//! adds them to the window that is open. A window is closed when its time or its rows are up. Then it is audited and
//! its report is written, while the next one fills.
#![tactic(auto)]

mod adding;
mod held_text;
mod options;
mod output;
mod profile;
mod program;
mod reporting;
mod watching;
mod window;
mod windows;
mod written;

pub use program::run;
