//! The rows of a profile's samples, those of the same locations merged into one.

ghost use Rattle.std.specs.Prelude.{◌≡◌, ◌<◌, IfOk, MatchResult, OnOk, Some, length};
ghost use Rattle.profile_samples.specs.declared.sampling.ValueChoice.{ValueChoice};
ghost use Rattle.profile_rows.specs.Aggregate.{aggregate_of};
ghost use Rattle.profile_rows.specs.Merging.{AreMergedSoFar};
ghost use Rattle.profile_samples.specs.Samples.{chosen_types_of};
ghost use Rattle.profile_samples.specs.Batches.{GivesOfStacks, IsStacksWorkFault, StandsAtSample};
ghost use Rattle.profile_samples.specs.LocationSums.{AreReadyToSum, AreSampleSums, FitStacks, rows_of_sums};
ghost use Rattle.profile_samples.specs.MergedSamples.{IsMergedBatch};

use crate::location_sums::LocationSums;
use crate::name_numbers::NumberedFrames;
use crate::sampling::{BatchFault, ValueChoice, chosen_value, sample_weight};
use basics::NoMemory;
use pprof_profile::{Draft, Profile, SamplesByList};
use profile_rows::{Hashing, WeightedStacks};
use std::alloc::Global;

/// Sums the samples of a valid draft by their locations and the values at an index.
pub(crate) fn sum_samples(
    draft: &Draft,
    frames: &NumberedFrames,
    samples: &SamplesByList,
    sums: &mut LocationSums,
    chosen: usize,
) -> Result<(), BatchFault>
    requires { AreReadyToSum draft.now frames.now samples.now sums.old chosen }
    ensures sums { (choice : ValueChoice) → chosen_types_of draft.now choice ≡ Some (chosen, 1)
        → MatchResult result (λ done. AreSampleSums draft.now choice sums.new)
        (λ fault. StandsAtSample 1 draft.now choice fault) }
    ensures stacks { OnOk result (FitStacks frames.now sums.new) }
{
    for index in 0..samples.len() {
        let sample = samples.at(index);
        let weight = sample_weight(frames, chosen, &sample, sums.total(), index as u64)?;
        sums.add(samples.number_at(index) as usize, weight);
    }
    Ok(())
}

/// The rows of lists of locations, where they weigh something.
fn stacks_of(
    alloc: Global,
    frames: &NumberedFrames,
    sums: &LocationSums,
) -> Result<WeightedStacks, NoMemory>
    requires { FitStacks frames.now sums.now }
    ensures { IfOk result (AreMergedSoFar (rows_of_sums frames.now sums.now)) }
{
    let mut stacks = WeightedStacks::new(alloc);
    for number in 0..sums.len() {
        let (ids, weight) = sums.at(number);
        if weight > 0 {
            let stack = frames.stack_at(alloc, ids)?;
            stacks.push(stack, weight).map_err(|_| NoMemory)?;
        }
    }
    Ok(stacks)
}

/// The rows of a valid draft's samples by the values at an index, those of the same locations merged by sums. Where
/// memory runs out, no sample has a fault.
fn merged_by(
    alloc: Global,
    draft: &Draft,
    frames: &NumberedFrames,
    samples: &SamplesByList,
    sums: &mut LocationSums,
    chosen: usize,
) -> Result<WeightedStacks, BatchFault>
    requires { AreReadyToSum draft.now frames.now samples.now sums.old chosen }
    ensures { (choice : ValueChoice) → chosen_types_of draft.now choice ≡ Some (chosen, 1)
        → MatchResult result (λ merged. IsMergedBatch draft.now choice merged)
        (λ fault. IsStacksWorkFault draft.now choice fault) }
{
    sum_samples(draft, frames, samples, sums, chosen)?;
    Ok(stacks_of(alloc, frames, sums)?)
}

/// The rows of a profile's samples by one value, those of the same locations merged and their weights summed: as
/// [`batch_of`](crate::batch_of), and every report on them is the same, in fewer rows. `hashing` says how names and ids
/// are hashed.
///
/// # Errors
///
/// Those of [`batch_of`](crate::batch_of); `Width` where all values are asked for and there is more than one.
pub fn merge_samples(
    alloc: Global,
    hashing: Hashing,
    profile: &Profile,
    choice: ValueChoice,
) -> Result<WeightedStacks, BatchFault>
    ensures { GivesOfStacks profile.now choice.entry (IsMergedBatch profile.now choice.entry)
        (λ rows merged. aggregate_of merged ≡ aggregate_of rows) result }
{
    let draft = profile.draft();
    let chosen = chosen_value(alloc, draft, choice)?;
    let samples = draft.samples.by_list();
    let mut sums = LocationSums::new(alloc, &samples)?;
    let frames = NumberedFrames::new(alloc, hashing, profile)?;
    let merged = merged_by(alloc, draft, &frames, &samples, &mut sums, chosen);
    drop(frames);
    drop(sums);
    merged
}
