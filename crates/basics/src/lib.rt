//! What several layers share: the fault that memory ran out, and lists that a contract sees as their items.
#![tactic(auto)]

mod items;
mod no_memory;
mod spans;

pub use items::Items;
pub use no_memory::NoMemory;
pub use spans::{Span, append};
