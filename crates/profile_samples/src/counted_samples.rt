//! What the names of frames weigh in a profile's samples, counted without rows.

ghost use Rattle.std.specs.Prelude.{◌≡◌, ◌+◌, ◌^◌, ◌<◌, ◌++◌, ◌∷◌, [], IfOk, List, MatchResult, None, OnOk, Some};
ghost use Rattle.std.specs.Prelude.{length, map};
ghost use Rattle.profile_rows.specs.declared.weighted_stacks.WeightedStack.{WeightedStack};
ghost use Rattle.profile_rows.specs.Rows.{total_of};
ghost use Rattle.profile_rows.specs.TopList.{AreTotalsOf};
ghost use Rattle.profile_samples.specs.declared.sampling.ValueChoice.{ValueChoice};
ghost use Rattle.profile_samples.specs.Samples.{chosen_types_of};
ghost use Rattle.profile_samples.specs.Batches.{GivesOfStacks, IsStacksWorkFault};
ghost use Rattle.profile_samples.specs.CountedSamples.{AreNumbersOfIds, AreTotalsOfSamples};
ghost use Rattle.profile_samples.specs.CountedSamples.{HaveCounted};
ghost use Rattle.profile_samples.specs.LocationSums.{AreReadyToSum, row_of_sum, rows_of_sums};

use crate::location_sums::LocationSums;
use crate::merged_samples::sum_samples;
use crate::name_numbers::NumberedFrames;
use crate::sampling::{BatchFault, ValueChoice, chosen_value};
use crate::unfolding::push_numbers;
use basics::NoMemory;
use bumpalo::Bump;
use name_counts::{LentTotals, Tallies};
use pprof_profile::{Draft, Profile, SamplesByList};
use profile_rows::{FrameTotals, Hashing, Name};
use std::alloc::{AllocError, Global};

/// Puts the numbers of the names of these locations into a list, those of each location once. They are gathered before
/// they are counted, so that waits for memory overlap where locations stand far apart.
#[inline(always)]
fn gather_numbers(
    frames: &NumberedFrames,
    ids: &[u64],
    numbers: &mut Vec<usize>,
) -> Result<(), AllocError>
    ensures { OnOk result (AreNumbersOfIds frames.now ids.now numbers.new.items) }
{
    numbers.clear();
    for id in ids {
        if let Some(names) = frames.names_of(*id) {
            push_numbers(numbers, names)?;
        }
    }
    Ok(())
}

/// Counts a row of these locations.
fn count_row(
    frames: &NumberedFrames,
    tallies: &mut Tallies,
    numbers: &mut Vec<usize>,
    ids: &[u64],
    weight: u64,
) -> Result<(), AllocError>
    requires { (rows : List WeightedStack) × HaveCounted frames.now rows tallies.old
        × (total_of rows + weight < 2 ^ 63) }
    ensures { (rows : List WeightedStack) → HaveCounted frames.now rows tallies.old
        → OnOk result (HaveCounted frames.now
        (rows ++ (row_of_sum frames.now (record { ids = ids.now; weight = weight })) ∷ []) tallies.new) }
{
    gather_numbers(frames, ids, numbers)?;
    tallies.count(numbers.as_slice(), frames.leaf_of(ids), weight);
    Ok(())
}

/// Counts the rows of lists of locations, one after the other.
fn count_sums(
    frames: &NumberedFrames,
    tallies: &mut Tallies,
    numbers: &mut Vec<usize>,
    sums: &LocationSums,
) -> Result<(), AllocError>
    requires none { HaveCounted frames.now [] tallies.old }
    ensures { OnOk result (HaveCounted frames.now (rows_of_sums frames.now sums.now) tallies.new) }
{
    for index in 0..sums.len() {
        let (ids, weight) = sums.at(index);
        count_row(frames, tallies, numbers, ids, weight)?;
    }
    Ok(())
}

/// Copies of names in the arena.
fn texts_of<'a>(alloc: Global, arena: &'a Bump, names: &[Name]) -> Result<Vec<&'a str>, AllocError>
    ensures { IfOk result (λ texts. map (λ text. text.now) texts.items ≡ names.now) }
{
    let mut texts = Vec::with_capacity(alloc, names.len())?;
    for name in names {
        texts.push(arena.try_alloc_str(name.text())?)?;
    }
    Ok(texts)
}

/// What the names weigh in the rows of lists of locations.
fn totals_of<'a>(
    alloc: Global,
    arena: &'a Bump,
    frames: &NumberedFrames,
    sums: &LocationSums,
) -> Result<LentTotals<'a>, NoMemory>
    ensures { IfOk result (AreTotalsOf (rows_of_sums frames.now sums.now)) }
{
    let mut tallies = Tallies::without_rows(alloc, frames.names().len())?;
    let mut numbers = Vec::new(alloc);
    count_sums(frames, &mut tallies, &mut numbers, sums)?;
    let names = texts_of(alloc, arena, frames.names())?;
    let totals = tallies.totals(alloc, names.as_slice());
    drop(names);
    drop(tallies);
    Ok(totals?)
}

/// What the names weigh in the rows of a valid draft's samples by the values at an index, which are summed by their
/// lists of locations. Where memory runs out, no sample has a fault.
fn totals_by<'a>(
    alloc: Global,
    arena: &'a Bump,
    draft: &Draft,
    frames: &NumberedFrames,
    samples: &SamplesByList,
    sums: &mut LocationSums,
    chosen: usize,
) -> Result<LentTotals<'a>, BatchFault>
    requires { AreReadyToSum draft.now frames.now samples.now sums.old chosen }
    ensures { (choice : ValueChoice) → chosen_types_of draft.now choice ≡ Some (chosen, 1)
        → MatchResult result (AreTotalsOfSamples draft.now choice)
        (λ fault. IsStacksWorkFault draft.now choice fault) }
{
    sum_samples(draft, frames, samples, sums, chosen)?;
    Ok(totals_of(alloc, arena, frames, sums)?)
}

/// What [`sample_totals`] gives, with names that are copied into `arena`.
///
/// # Errors
///
/// Those of [`merge_samples`](crate::merge_samples).
pub fn lent_sample_totals<'a>(
    alloc: Global,
    hashing: Hashing,
    arena: &'a Bump,
    profile: &Profile,
    choice: ValueChoice,
) -> Result<LentTotals<'a>, BatchFault>
    ensures { GivesOfStacks profile.now choice.entry (AreTotalsOfSamples profile.now choice.entry) AreTotalsOf result }
{
    let draft = profile.draft();
    let chosen = chosen_value(alloc, draft, choice)?;
    let samples = draft.samples.by_list();
    let mut sums = LocationSums::new(alloc, &samples)?;
    let frames = NumberedFrames::new(alloc, hashing, profile)?;
    let totals = totals_by(alloc, arena, draft, &frames, &samples, &mut sums, chosen);
    drop(frames);
    drop(sums);
    totals
}

/// What the names weigh in the rows that [`batch_of`](crate::batch_of) makes of a profile's samples, by one value. No
/// rows are made. `hashing` says how names and ids are hashed.
///
/// Samples of one list of locations are counted together. Memory is for the names, and eight bytes for each list.
///
/// # Errors
///
/// Those of [`merge_samples`](crate::merge_samples).
pub fn sample_totals(
    alloc: Global,
    hashing: Hashing,
    profile: &Profile,
    choice: ValueChoice,
) -> Result<FrameTotals, BatchFault>
    ensures { GivesOfStacks profile.now choice.entry (AreTotalsOfSamples profile.now choice.entry) AreTotalsOf result }
{
    let arena = Bump::new(alloc);
    let lent = lent_sample_totals(alloc, hashing, &arena, profile, choice)?;
    Ok(lent.keep(alloc)?)
}
