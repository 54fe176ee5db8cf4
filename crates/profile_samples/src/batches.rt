//! A profile's samples as a batch: the values that are chosen, a row for each sample, and why there is none.

ghost use Rattle.std.specs.Prelude.{ℕ, ◌≡◌, ◌+◌, ◌<◌, ◌≤◌, ◌∷◌, ◌++◌, [], List, MatchResult, Some, length};
ghost use Rattle.profile_rows.specs.Values.{AreTotals, HasRoom, Row};
ghost use Rattle.profile_samples.specs.declared.sampling.ValueChoice.{ValueChoice};
ghost use Rattle.profile_samples.specs.Samples.{AreWeightsOf, IsRowOfSample, IsSampleFault, IsValueFault};
ghost use Rattle.profile_samples.specs.Samples.{chosen_types_of};
ghost use Rattle.profile_samples.specs.Batches.{GivesBatch, IsBatchOf, StandsAtSample};

use crate::name_numbers::NumberedFrames;
use crate::sampling::{BatchFault, ChosenValues, ValueChoice, chosen_values, weight_of};
use basics::NoMemory;
use pprof_profile::{Profile, SampleRef};
use profile_rows::{Batch, Hashing, MAX_DEPTH, MAX_WIDTH, Weights, first_heavy};
use std::alloc::Global;

/// The values that are taken, as weights.
fn weights_of(values: &[i64], chosen: &ChosenValues, number: u64) -> Result<Weights, BatchFault>
    requires { chosen.now.first + chosen.now.width ≤ length values.now }
    ensures { MatchResult result (AreWeightsOf chosen.now.first chosen.now.width values.now)
        (λ fault. (value : ℕ) × (value < chosen.now.width)
        × IsValueFault (chosen.now.first + value) number values.now fault) }
{
    let count = chosen.width.get() as usize;
    let mut four = [0; 4];
    for value in 0..count {
        four[value] = weight_of(values, chosen.first + value, number)?;
    }
    Ok(Weights::make(&four[..count]).unwrap())
}

/// Adds the row of a sample, where it gives one that can follow the rows of the batch. A fault of the sample is found
/// before memory can run out at it.
fn add_sample(
    alloc: Global,
    frames: &NumberedFrames,
    batch: &mut Batch,
    chosen: &ChosenValues,
    sample: &SampleRef,
    number: u64,
) -> Result<(), BatchFault>
    requires values { chosen.now.first + chosen.now.width ≤ length sample.now.values }
    requires width { batch.old.width ≡ chosen.now.width }
    ensures { MatchResult result
        (λ done. (row : Row) × IsRowOfSample frames.now chosen.now.first batch.old.width sample.now row
        × ((value : ℕ) → HasRoom batch.old row.weights value)
        × (batch.new ≡ record { width = batch.old.width; rows = batch.old.rows ++ row ∷ [] }))
        (λ fault. (totals : List ℕ) × AreTotals batch.old totals
        × IsSampleFault frames.now chosen.now.first totals number sample.now fault) }
{
    let ids = sample.location_ids();
    let totals = batch.total();
    let weights = weights_of(sample.values(), chosen, number)?;
    if !frames.fit(ids) {
        return Err(BatchFault::Depth { sample: number });
    }
    if let Some(_) = first_heavy(&totals, &weights) {
        return Err(BatchFault::Heavy { sample: number });
    }
    let stack = frames.stack_at(alloc, ids)?;
    Ok(batch.push(stack, weights).map_err(|_| NoMemory)?)
}

/// The batch of a profile's samples by these values. Where memory runs out, the samples before have no fault, nor has
/// the one at hand.
fn batch_by(
    alloc: Global,
    profile: &Profile,
    frames: &NumberedFrames,
    chosen: &ChosenValues,
) -> Result<Batch, BatchFault>
    requires framed { frames.now ≡ profile.now }
    requires typed { chosen.now.first + chosen.now.width ≤ length profile.now.sample_types }
    ensures { (choice : ValueChoice)
        → chosen_types_of profile.now choice ≡ Some (chosen.now.first, chosen.now.width)
        → MatchResult result (λ batch. IsBatchOf profile.now choice batch)
        (λ fault. StandsAtSample MAX_WIDTH profile.now choice fault) }
{
    let mut batch = Batch::new(alloc, chosen.width);
    let samples = &profile.draft().samples;
    for index in 0..samples.len() {
        let sample = samples.at(index);
        add_sample(alloc, frames, &mut batch, chosen, &sample, index as u64)?;
    }
    Ok(batch)
}

/// The rows of a profile's samples: a row for each, in order. Its stack has the frames of the sample's locations, root
/// first; its values are those that the choice takes, in the order of the sample types.
///
/// # Errors
///
/// `NoValue` where there is no such sample type; `Width` where all are asked for and there are more than four. Else the
/// fault of the first sample that has one, in the order of [`BatchFault`]'s variants; `NoMemory`.
pub fn batch_of(alloc: Global, profile: &Profile, choice: ValueChoice) -> Result<Batch, BatchFault>
    ensures { GivesBatch profile.now choice.entry result }
{
    batch_of_with(alloc, Hashing::fixed(), profile, choice)
}

/// As [`batch_of`], and `hashing` says how ids are hashed.
///
/// # Errors
///
/// Those of [`batch_of`].
pub fn batch_of_with(
    alloc: Global,
    hashing: Hashing,
    profile: &Profile,
    choice: ValueChoice,
) -> Result<Batch, BatchFault>
    ensures { GivesBatch profile.now choice.entry result }
{
    let chosen = chosen_values(alloc, profile.draft(), choice, MAX_WIDTH)?;
    let frames = NumberedFrames::new(alloc, hashing, profile)?;
    let batch = batch_by(alloc, profile, &frames, &chosen);
    drop(frames);
    batch
}
