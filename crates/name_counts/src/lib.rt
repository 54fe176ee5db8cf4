//! Names by their numbers: texts that are numbered as they come, the frames of a row by the numbers of their names, and
//! what names weigh, counted by them.
#![tactic(auto)]

mod counted_rows;
mod frame_source;
mod known_names;
mod lent_totals;
mod numbered_row;
mod tallies;
mod text_table;

pub use counted_rows::{CountedRows, kept_totals, replace_by_names};
pub use frame_source::{FrameSource, ListedFrames};
pub use known_names::KnownNames;
pub use lent_totals::{LentTotal, LentTotals, keep_totals};
pub use numbered_row::NumberedRow;
pub use tallies::{Tallies, Tally};
pub use text_table::TextTable;
