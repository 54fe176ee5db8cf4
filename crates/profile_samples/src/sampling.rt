//! A profile's samples as rows: the values that are chosen, a row for each sample, and why there is none.

ghost use Rattle.std.specs.Prelude.{◌≡◌, ◌∷◌, [], ◌^◌, ◌<◌, ◌≤◌, IfOk, MatchResult, Some, pos, length, slice_get};
ghost use Rattle.std.specs.List.{position};
ghost use Rattle.pprof_profile.specs.declared.messages.ValueType.{ValueType};
ghost use Rattle.profile_samples.specs.declared.sampling.ValueChoice.{ValueChoice};
ghost use Rattle.profile_samples.specs.Batches.{IsFirstSamplesFault, IsFirstStacksFault};
ghost use Rattle.profile_samples.specs.Samples.{AreChosen, IsSampleFault, IsValueFault, IsWeightAfter, chosen_types_of};
ghost use Rattle.profile_samples.specs.Samples.{default_type, type_named};
ghost use Rattle.profile_samples.specs.EqualStrings.{equal_at, equal_strings};

use crate::name_numbers::NumberedFrames;
use crate::string_names::string_at;
use basics::NoMemory;
use pprof_profile::{Draft, SampleRef, Text, ValueType};
use profile_rows::{MAX_TOTAL, MAX_WIDTH, Width};
use std::alloc::{AllocError, Global};
use thiserror::Error;

/// Which values of each sample are those of its row.
#[derive(Clone, Copy, Debug)]
pub enum ValueChoice<'a> {
    /// That of the profile's `default_sample_type`: the first sample type of that name. Where it is 0 or names none,
    /// the last.
    Default,
    /// The first sample type of this name.
    Named(&'a str),
    /// All of them, in the order of the sample types.
    All,
}

/// Why a profile gives no batch. Samples are numbered from 0.
#[derive(Clone, Copy, Debug, PartialEq, Eq, Error)]
pub enum BatchFault {
    /// There is no such sample type, or none at all.
    #[error("B1 NoValue")]
    NoValue,
    /// All values are asked for, and there are more sample types than a row can have values: four, or one where rows of
    /// one value are made.
    #[error("B6 Width count {count}")]
    Width { count: usize },
    /// A value of the sample that is taken is below 0.
    #[error("B2 Negative sample {sample}")]
    Negative { sample: u64 },
    /// The sample's stack has more than 65,535 frames.
    #[error("B3 Depth sample {sample}")]
    Depth { sample: u64 },
    /// The weights of a value so far, the sample's among them, are above 2^63 - 1 together.
    #[error("B4 Heavy sample {sample}")]
    Heavy { sample: u64 },
    /// Memory ran out.
    #[error("B5 NoMemory")]
    NoMemory,
}

impl From<NoMemory> for BatchFault {
    ghost use Rattle.std.specs.Prelude.{◌≡◌};
    ghost use Rattle.profile_samples.specs.declared.sampling.BatchFault.TheVariants.{NoMemory};

    ghost from_gives = { λ _ fault. fault ≡ NoMemory };

    fn from(_error: NoMemory) -> BatchFault {
        BatchFault::NoMemory
    }
}

impl From<AllocError> for BatchFault {
    ghost use Rattle.std.specs.Prelude.{◌≡◌};
    ghost use Rattle.profile_samples.specs.declared.sampling.BatchFault.TheVariants.{NoMemory};

    ghost from_gives = { λ _ fault. fault ≡ NoMemory };

    fn from(_error: AllocError) -> BatchFault {
        BatchFault::NoMemory
    }
}

/// For each string whether it is this text.
fn equal_strings(alloc: Global, strings: &[Text], text: &str) -> Result<Vec<bool>, AllocError>
    ensures { IfOk result (λ equal. equal.items ≡ equal_strings strings.now text.now) }
{
    strings
        .iter()
        .map(|string| string.as_str() == text)
        .collect(alloc)
}

/// Whether the string at an index is this text, by what is known of each string.
fn is_equal_at(equal: &[bool], index: i64, text: &str) -> bool
    ensures { result ≡ equal_at equal.now text.now index }
{
    let known = usize::try_from(index)
        .ok()
        .and_then(|at| equal.get(at).copied());
    known.unwrap_or("" == text)
}

/// The first sample type of this name, by what is known of each string.
fn type_by_strings(kinds: &[ValueType], equal: &[bool], text: &str) -> Option<usize>
    ensures { result ≡ position (λ kind. equal_at equal.now text.now kind.kind) kinds.now }
{
    kinds
        .iter()
        .position(|kind| is_equal_at(equal, kind.kind, text))
}

/// The first sample type of this name. Many types can name one long string: each string is compared once, and for each
/// type where memory runs out.
fn type_named(alloc: Global, draft: &Draft, text: &str) -> Option<usize>
    ensures { result ≡ type_named draft.now text.now }
{
    let strings = draft.strings.as_slice();
    let kinds = draft.sample_types.as_slice();
    match equal_strings(alloc, strings, text) {
        Ok(equal) => type_by_strings(kinds, equal.as_slice(), text),
        Err(_) => kinds
            .iter()
            .position(|kind| string_at(strings, kind.kind) == text),
    }
}

/// The sample type that the profile itself chooses.
fn default_type(alloc: Global, draft: &Draft) -> Option<usize>
    ensures { result ≡ default_type draft.now }
{
    let last = draft.sample_types.len().checked_sub(1);
    if draft.default_sample_type == 0 {
        return last;
    }
    let text = string_at(draft.strings.as_slice(), draft.default_sample_type);
    type_named(alloc, draft, text).or(last)
}

/// The values that are taken of each sample: the index of the first, and how many they are.
#[derive(Clone, Copy)]
pub(crate) struct ChosenValues {
    pub(crate) first: usize,
    pub(crate) width: Width,
}

/// The values that a choice takes, where they are no more than these.
pub(crate) fn chosen_values(
    alloc: Global,
    draft: &Draft,
    choice: ValueChoice,
    most: u32,
) -> Result<ChosenValues, BatchFault>
    requires some { 0 < most }
    requires few { most ≤ MAX_WIDTH }
    ensures { MatchResult result
        (λ chosen. AreChosen most draft.now choice.entry chosen.first chosen.width)
        (λ fault. IsFirstSamplesFault most draft.now choice.entry fault) }
{
    let (first, count) = match choice {
        ValueChoice::All => (Some(0), draft.sample_types.len()),
        ValueChoice::Default => (default_type(alloc, draft), 1),
        ValueChoice::Named(text) => (type_named(alloc, draft, text), 1),
    };
    if count > most as usize {
        return Err(BatchFault::Width { count });
    }
    match (first, Width::new(count as u32)) {
        (Some(first), Some(width)) => Ok(ChosenValues { first, width }),
        _ => Err(BatchFault::NoValue),
    }
}

/// The index of the one value that a choice takes.
pub(crate) fn chosen_value(
    alloc: Global,
    draft: &Draft,
    choice: ValueChoice,
) -> Result<usize, BatchFault>
    ensures { MatchResult result (λ first. chosen_types_of draft.now choice.entry ≡ Some (first, 1))
        (λ fault. IsFirstStacksFault draft.now choice.entry fault) }
{
    Ok(chosen_values(alloc, draft, choice, 1)?.first)
}

/// The chosen value as a weight.
pub(crate) fn weight_of(values: &[i64], chosen: usize, number: u64) -> Result<u64, BatchFault>
    requires { chosen < length values.now }
    ensures { MatchResult result
        (λ weight. (slice_get values.now chosen ≡ Some (pos weight)) × (weight < 2 ^ 63))
        (IsValueFault chosen number values.now) }
{
    u64::try_from(values[chosen]).map_err(|_| BatchFault::Negative { sample: number })
}

/// The weight of a sample by the value at an index, where it gives a row that can follow rows of the weight `earlier`.
pub(crate) fn sample_weight(
    frames: &NumberedFrames,
    chosen: usize,
    sample: &SampleRef,
    earlier: u64,
    number: u64,
) -> Result<u64, BatchFault>
    requires values { chosen < length sample.now.values }
    requires earlier { earlier < 2 ^ 63 }
    ensures { MatchResult result (IsWeightAfter frames.now chosen earlier sample.now)
        (IsSampleFault frames.now chosen (earlier ∷ []) number sample.now) }
{
    let weight = weight_of(sample.values(), chosen, number)?;
    if !frames.fit(sample.location_ids()) {
        return Err(BatchFault::Depth { sample: number });
    }
    if weight > MAX_TOTAL - earlier {
        return Err(BatchFault::Heavy { sample: number });
    }
    Ok(weight)
}
