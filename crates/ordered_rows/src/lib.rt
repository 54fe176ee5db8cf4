//! Rows in the order of their stacks, of which reports are made: by the names of these, or by stack texts, for which no
//! name is made.
#![tactic(auto)]

mod counting;
pub mod laws;
mod ordered_rows;
mod stack_frames;
mod text_order;
mod text_row;
mod text_stacks;

pub use counting::count_rows;
pub use ordered_rows::OrderedRows;
pub use stack_frames::{TextFrames, measured, replace_by_text};
pub use text_row::TextRow;
