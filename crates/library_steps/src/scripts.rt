//! Scripts of worked rows: their blocks and steps, the bytes that steps name, and what a step made beside what it has
//! to make. What each command does stands in the other modules, and in `worked_rows`.

mod bytes;
mod checker;
mod made;
mod scenes;
mod script;

pub use bytes::Names;
pub use checker::Checker;
pub use made::{Made, Wrong};
pub use scenes::{Scene, next_step, run_steps};
pub use script::{Script, Step, Words, first_line};
