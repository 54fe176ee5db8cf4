//! The samples of a pprof profile as rows, and rows as the samples of a profile.
#![tactic(auto)]

mod batches;
mod counted_samples;
mod exporting;
mod folded_export;
mod frame_lists;
mod function_numbers;
mod id_index;
mod known_stacks;
pub mod laws;
mod location_sums;
mod merged_samples;
mod name_numbers;
mod sampling;
mod string_names;
mod unfolding;

pub use batches::{batch_of, batch_of_with};
pub use counted_samples::{lent_sample_totals, sample_totals};
pub use exporting::{ValueUnit, profile_of};
pub use folded_export::export_folded;
pub use merged_samples::merge_samples;
pub use sampling::{BatchFault, ValueChoice};
pub use unfolding::unfold;
