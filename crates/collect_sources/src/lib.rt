//! The sources of `collect`: files, named pipes and folders, read as they come.
//!
//! A thread reads each source, and cuts what it brings into pieces of whole lines. What is wrong with a source is told
//! on the standard error.
#![tactic(auto)]

mod begun;
mod folders;
mod messages;
mod origin;
mod reading;
mod sources;
mod text;

pub use folders::Inbox;
pub use messages::Messages;
pub use origin::Origin;
pub use reading::{Content, Lines, Opened, Piece, Reader};
pub use sources::open;
pub use text::{count_lines, first_lines};
