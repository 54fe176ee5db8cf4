//! Names, stacks and batches of weighted stacks; folded text; the samples of profiles as rows.
//!
//! What users name, from the crates that have it: `profile_rows`, `folded_text` and `profile_samples`.
#![tactic(auto)]

pub mod laws;

pub use folded_text::{
    AddedLines, FoldedFault, LineSums, folded_totals, merge_lines, read_folded, read_folded_with,
    read_ordered, write_folded, write_ordered, write_stacks,
};
pub use name_counts::{KnownNames, kept_totals};
pub use ordered_rows::OrderedRows;
pub use profile_rows::{
    Batch, FrameTotal, FrameTotals, HasFrames, Hashing, MAX_DEPTH, MAX_TOTAL, MAX_WIDTH, Name,
    NameFault, NoMemory, OwnedRow, PushFault, Refused, Row, Rows, Stack, WeightedStack,
    WeightedStacks, Weights, Width, aggregate, first_heavy, keeps,
};
pub use profile_samples::{
    BatchFault, ValueChoice, ValueUnit, batch_of, batch_of_with, export_folded, merge_samples,
    profile_of, sample_totals, unfold,
};
