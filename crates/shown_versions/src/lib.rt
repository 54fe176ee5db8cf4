//! The one list of a store's changes, as a history that only grows, and the versions of its tree that one writer shows
//! and readers enter without a lock. Each version is the aggregate of a list that the history has reached. The history
//! exists in proofs alone: the evidence that it has reached a list takes no bytes. What is there at run time is a word
//! on which its steps are made.
#![tactic(auto)]

mod beginning;
mod end;
mod front;
mod history_rule;
mod known;
mod name;
mod reached;
mod reader;
mod version;
mod version_rule;
mod writer;

pub use beginning::NewHistory;
pub use end::HistoryEnd;
pub use front::Front;
pub use known::KnownVersion;
pub use name::StoreName;
pub use reached::Reached;
pub use reader::{SeenReport, VersionReader};
pub use version::Version;
pub use version_rule::{Published, View};
pub use writer::{VersionWriter, make_room, new_reader, new_writer, publish};
