//! Folded text, as FlameGraph's scripts write it: read into rows, merged or counted while it is read, and written.
#![tactic(auto)]

mod folded;
pub mod laws;
mod line_sums;
mod merged;
mod taking;
mod text_rows;
mod text_totals;
mod written;

pub use folded::{
    FoldedFault, fitting, read_folded, read_folded_with, read_frames, read_stack, stack_and_weight,
};
pub use line_sums::{AddedLines, LineSums};
pub use merged::{merge_lines, read_ordered};
pub use taking::{LineTaker, take_lines};
pub use text_totals::{folded_totals, lent_totals, saves_work};
pub use written::{write_folded, write_ordered, write_stacks};
