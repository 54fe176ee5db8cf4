//! Names, stacks, rows of a stack and one to four values, and what they weigh.
//!
//! `specs/` has the plain profile: what each report says of a list of rows. `laws` has facts of these definitions.
#![tactic(auto)]

mod aggregating;
mod batch;
mod batch_rows;
mod frame_totals;
mod hashing;
mod keeping;
pub mod laws;
mod name;
mod stack;
mod stack_texts;
mod summing;
mod values;
mod weighted_stacks;

pub use aggregating::aggregate;
pub use basics::NoMemory;
pub use batch::{Batch, OwnedRow, Row};
pub use batch_rows::Rows;
pub use frame_totals::{FrameTotal, FrameTotals};
pub use hashing::Hashing;
pub use keeping::{HasFrames, keeps};
pub use name::{Name, NameFault};
pub use stack::{MAX_DEPTH, Stack};
pub use stack_texts::{AsName, StackText, push_joined};
pub use summing::aggregate_stacks;
pub use values::{MAX_WIDTH, Weights, Width, first_heavy};
pub use weighted_stacks::{MAX_TOTAL, PushFault, Refused, WeightedStack, WeightedStacks};
