//! Reports on a profile: totals, top lists, the layout of a flame graph and folded text, over the rows that a query
//! keeps.
#![tactic(auto)]

mod answer;
mod json_text;
pub mod laws;
mod layout;
mod query;
mod reports;
mod top;

pub use answer::{Answer, Flame, Label, Rect, Top};
pub use basics::Items;
pub use json_text::flame_json;
pub use profile_rows::{FrameTotal as TopRow, NoMemory};
pub use query::{Columns, Kind, MAX_COLUMNS, Query, Rank};
pub use reports::{report, report_in_order, report_of, report_of_stacks};
pub use top::{top_list, top_of_lent, top_text};
