//! The frames of samples by their names.

ghost use Rattle.std.specs.Prelude.{◌≡◌, ◌<◌, ◌≤◌, ◌++◌, All, IfOk, OnOk, length};
ghost use Rattle.name_counts.specs.TextTables.{names_at};
ghost use Rattle.profile_samples.specs.NameNumbers.{frame_names};
ghost use Rattle.profile_samples.specs.Samples.{frames_of_ids, frames_of_sample, sample_stack_of};

use crate::name_numbers::NumberedFrames;
use basics::NoMemory;
use pprof_profile::Profile;
use profile_rows::{Hashing, MAX_DEPTH, Name, Stack};
use std::alloc::{AllocError, Global};

/// Adds numbers to a list one by one: most locations have one, and a processor waits for a copy of unknown length.
pub(crate) fn push_numbers(numbers: &mut Vec<usize>, more: &[usize]) -> Result<(), AllocError>
    ensures { OnOk result (numbers.new.items ≡ numbers.old.items ++ more.now) }
{
    for number in more {
        numbers.push(*number)?;
    }
    Ok(())
}

impl<'a> NumberedFrames<'a> {
    /// The numbers of the frames of locations, leaf first. They are gathered before names are shared, so that waits for
    /// memory overlap where locations stand far apart.
    fn numbers_of_ids(&self, alloc: Global, ids: &[u64]) -> Result<Vec<usize>, AllocError>
        ensures inside { IfOk result
            (λ numbers. All (λ number. number < length (frame_names self.now)) numbers.items) }
        ensures names { IfOk result
            (λ numbers. names_at (frame_names self.now) numbers.items ≡ frames_of_ids self.now ids.now) }
    {
        let mut numbers = Vec::with_capacity(alloc, ids.len())?;
        for id in ids {
            if let Some(frames) = self.frames_of(*id) {
                push_numbers(&mut numbers, frames)?;
            }
        }
        Ok(numbers)
    }

    /// The names of the frames of locations, leaf first.
    pub fn leaf_first(&self, alloc: Global, ids: &[u64]) -> Result<Vec<Name>, NoMemory>
        ensures { IfOk result (λ names. names.items ≡ frames_of_ids self.now ids.now) }
    {
        let numbers = self.numbers_of_ids(alloc, ids)?;
        let names = self.names();
        let mut shares = Vec::with_capacity(alloc, numbers.len())?;
        for number in &numbers {
            shares.push(names[*number].clone()?)?;
        }
        Ok(shares)
    }

    /// The stack of the frames of these locations, which it can have.
    pub fn stack_at(&self, alloc: Global, ids: &[u64]) -> Result<Stack, NoMemory>
        requires { length (sample_stack_of self.now ids.now) ≤ MAX_DEPTH }
        ensures { IfOk result (λ stack. stack ≡ sample_stack_of self.now ids.now) }
    {
        let mut names = self.leaf_first(alloc, ids)?;
        names.reverse();
        Stack::make(names).map_err(|_| NoMemory)
    }
}

/// The names of a sample's frames, leaf first: the lines of its locations in order. Samples are numbered from 0.
///
/// # Errors
///
/// `NoMemory`.
pub fn unfold(alloc: Global, profile: &Profile, sample: usize) -> Result<Vec<Name>, NoMemory>
    requires { sample < length profile.now.samples }
    ensures { IfOk result (λ names. names.items ≡ frames_of_sample profile.now sample) }
{
    let frames = NumberedFrames::new(alloc, Hashing::fixed(), profile)?;
    let sample = profile.draft().samples.at(sample);
    frames.leaf_first(alloc, sample.location_ids())
}
