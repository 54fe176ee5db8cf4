//! A window of time as a call: a store that threads fill, each from a source of its own, closed and audited.
//!
//! Who calls [`fill_window`] names no store: it makes one, gives each source a thread and a session, and closes it once
//! all threads are done. So a window takes no memory once it is let go, and a service may fill one after the other.
#![tactic(auto)]

mod closed;
mod filling;
mod source;

pub use closed::ClosedWindow;
pub use filling::{WindowFault, fill_window};
pub use source::{NoWatcher, Slot, Source, Watcher};
