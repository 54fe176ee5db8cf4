//! The rows of an input as a batch.

ghost use Rattle.std.specs.Prelude.{MatchResult};
ghost use Rattle.flame_answers.specs.Inputs.{IsChosen, IsIn, IsRefusedIn};
ghost use Rattle.flame_answers.specs.Inputs.Wanted.{for_store};
ghost use Rattle.flame_words.specs.declared.request.Format.TheVariants.{Folded, Pprof};

use crate::answers::choice_of;
use crate::faults::AnswerFault;
use flame_words::{Format, Source};
use folded_text::read_folded_with;
use pprof_profile::{Text, decode};
use profile_rows::{Batch, Hashing};
use profile_samples::{ValueChoice, batch_of_with};
use std::alloc::Global;

/// The batch of an input's rows, as a store takes it: of all values, or of the one that a report would be of.
///
/// # Errors
///
/// The first fault of an input that has no rows; `NoMemory`.
pub fn batch_in(
    alloc: Global,
    hashing: Hashing,
    source: &Source,
    all: bool,
    input: &[u8],
) -> Result<Batch, AnswerFault>
    ensures { MatchResult result
        (λ batch. IsIn source.now.format (for_store all source.now.value) input.now batch)
        (λ fault. IsRefusedIn source.now.format (for_store all source.now.value) input.now fault) }
{
    match source.format {
        Format::Folded => Ok(read_folded_with(alloc, hashing, input)?),
        Format::Pprof => profile_batch(alloc, hashing, all, &source.value, input),
    }
}

/// The batch of a profile's samples.
fn profile_batch(
    alloc: Global,
    hashing: Hashing,
    all: bool,
    value: &Option<Text>,
    input: &[u8],
) -> Result<Batch, AnswerFault>
    ensures { MatchResult result
        (λ batch. IsIn Pprof (for_store all value.now) input.now batch)
        (λ fault. IsRefusedIn Pprof (for_store all value.now) input.now fault) }
{
    let profile = decode(alloc, input)?;
    let batch = batch_of_with(alloc, hashing, &profile, choice_for_store(all, value));
    drop(profile);
    Ok(batch?)
}

/// The choice of one value or of all.
fn choice_for_store<'a>(all: bool, value: &'a Option<Text>) -> ValueChoice<'a>
    ensures { IsChosen (for_store all value.entry.now) result }
{
    if all {
        ValueChoice::All
    } else {
        choice_of(value)
    }
}
