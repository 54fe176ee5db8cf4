//! A tree of the stacks of a profile with their weights, which grows by batches: a plan makes room for a batch, and a
//! credit adds it without taking memory.
#![tactic(auto)]

mod grower;
mod node;
mod nodes;
mod tree;
mod walk;

pub use grower::{Grower, Plan};
pub use profile_rows::{FrameTotal, NoMemory};
pub use tree::CallTree;
