//! Folded text as the bytes of a profile, with no row and no sample kept.

ghost use Rattle.std.specs.Prelude.{ℕ, ◌≡◌, ◌≢◌, ◌+◌, ◌^◌, ◌<◌, [], All, IfOk, List, MatchResult, OnOk, map, reverse};
ghost use Rattle.profile_rows.specs.declared.weighted_stacks.WeightedStack.{WeightedStack};
ghost use Rattle.profile_samples.specs.Export.{AreSamplesOf, IsExportOf};
ghost use Rattle.profile_samples.specs.KnownStacks.{AreKnownStacks, HasRead};
ghost use Rattle.folded_text.specs.FoldedText.{GivesOfRows, HasWeight, IsLineFault};
ghost use Rattle.ordered_rows.specs.StackFrames.{frames_of};

use crate::exporting::{ValueUnit, exported_draft};
use crate::known_stacks::KnownStacks;
use basics::NoMemory;
use bumpalo::Bump;
use folded_text::{FoldedFault, LineTaker, fitting, read_stack, stack_and_weight, take_lines};
use name_counts::NumberedRow;
use pprof_profile::{WrittenSamples, encode_around};
use profile_rows::Hashing;
use std::alloc::Global;

/// Rows as the samples of the profile that they are exported as: written when they come, their names numbered as they
/// first stand. The ids of a line's frames take the place of others in the buffer.
#[derive(Drop)]
struct SampledRows<'a> {
    row: NumberedRow<'a>,
    known: KnownStacks<'a>,
    samples: WrittenSamples,
    ids: Vec<u64>,
    total: u64,
}

/// The ids of the locations of a stack's frames, leaf first, in the place of others.
fn replace_ids(ids: &mut Vec<u64>, numbers: &[usize]) -> Result<(), NoMemory>
    requires { All (λ number. number < 2 ^ 63) numbers.now }
    ensures { OnOk result (ids.new.items ≡ reverse (map (λ number. number + 1) numbers.now)) }
{
    ids.clear();
    for number in numbers {
        ids.push(*number as u64 + 1)?;
    }
    ids.reverse();
    Ok(())
}

impl<'a> SampledRows<'a> {
    /// Puts the ids of the locations of a stack's frames in the place of others, where its row can follow those before.
    fn read_new(&mut self, stack: &str, weight: u64, number: u64) -> Result<(), FoldedFault>
        requires line { (line : List ℕ) × All (λ byte. byte ≢ 10) line × HasWeight line stack.now weight }
        requires total { self.old.total < 2 ^ 63 }
        ensures { (line : List ℕ) → All (λ byte. byte ≢ 10) line → HasWeight line stack.now weight → MatchResult result
            (λ done. HasRead line stack.now weight self.old self.new × (self.new.known ≡ self.old.known)
            × (self.new.row.frames ≡ frames_of stack.now)) (IsLineFault self.old.total number line) }
    {
        read_stack(&mut self.row, stack, weight, self.total, number)?;
        Ok(replace_ids(&mut self.ids, self.row.numbers())?)
    }

    /// As [`read_new`](Self::read_new), and a stack that is known isn't cut again.
    fn read_ids(&mut self, stack: &'a str, weight: u64, number: u64) -> Result<(), FoldedFault>
        requires line { (line : List ℕ) × All (λ byte. byte ≢ 10) line × HasWeight line stack.now weight }
        requires total { self.old.total < 2 ^ 63 }
        requires known { AreKnownStacks self.old.row.texts self.old.known }
        ensures { (line : List ℕ) → All (λ byte. byte ≢ 10) line → HasWeight line stack.now weight → MatchResult result
            (λ done. HasRead line stack.now weight self.old self.new
            × AreKnownStacks self.new.row.texts self.new.known) (IsLineFault self.old.total number line) }
    {
        if !self.known.should_seek(stack) {
            return self.read_new(stack, weight, number);
        }
        if let Some(numbers) = self.known.find(stack) {
            fitting(numbers.len(), weight, self.total, number)?;
            return Ok(replace_ids(&mut self.ids, numbers)?);
        }
        self.read_new(stack, weight, number)?;
        Ok(self.known.add(stack, self.row.numbers())?)
    }
}

impl<'a> LineTaker<'a> for SampledRows<'a> {
    ghost is_of = { λ sampled rows. AreSamplesOf rows sampled.row.texts sampled.samples sampled.total
        × AreKnownStacks sampled.row.texts sampled.known };

    fn take_line(&mut self, line: &'a str, number: u64) -> Result<(), FoldedFault> {
        let (stack, weight) = stack_and_weight(line, number)?;
        self.read_ids(stack, weight, number)?;
        self.samples.push(self.ids.as_slice(), &[weight as i64])?;
        self.total += weight;
        Ok(())
    }
}

/// The bytes of the profile of the rows.
fn profile_bytes(
    alloc: Global,
    hashing: Hashing,
    rows: &SampledRows,
    kind: &str,
    unit: &str,
) -> Result<Vec<u8>, NoMemory>
    requires { (all : List WeightedStack)
        × AreSamplesOf all rows.now.row.texts rows.now.samples rows.now.total }
    ensures { (all : List WeightedStack)
        → AreSamplesOf all rows.now.row.texts rows.now.samples rows.now.total
        → IfOk result (λ bytes. IsExportOf kind.now unit.now all bytes.items) }
{
    let units = [ValueUnit { kind, unit }];
    let draft = exported_draft(alloc, hashing, rows.row.names(), &units)?;
    let bytes = encode_around(alloc, &draft, &rows.samples);
    drop(draft);
    bytes
}

/// The bytes of the profile of a text's rows, which are added to none.
fn exported_bytes<'a>(
    alloc: Global,
    hashing: Hashing,
    rows: &mut SampledRows<'a>,
    text: &'a [u8],
    kind: &str,
    unit: &str,
) -> Result<Vec<u8>, FoldedFault>
    requires samples { AreSamplesOf [] rows.old.row.texts rows.old.samples rows.old.total }
    requires known { AreKnownStacks rows.old.row.texts rows.old.known }
    ensures { GivesOfRows text.now (λ rows bytes. IsExportOf kind.now unit.now rows bytes.items) result }
{
    take_lines(text, rows)?;
    Ok(profile_bytes(alloc, hashing, rows, kind, unit)?)
}

/// Folded text as a profile's bytes: those that [`encode`](pprof_profile::encode) gives of
/// [`profile_of`](crate::profile_of) the batch of one value that [`read_folded`](crate::read_folded) reads. The bytes
/// are a profile, which [`decode`](pprof_profile::decode) reads. `hashing` says how names and stack texts are hashed.
///
/// Neither rows nor samples are kept: memory is for the bytes and the names. The numbers of a stack's names are kept by
/// its text, as long as that saves work: while these texts are at most three quarters of the lines, or fewer than some
/// thousand in a megabyte.
///
/// # Errors
///
/// Those of [`read_folded`](crate::read_folded).
pub fn export_folded(
    alloc: Global,
    hashing: Hashing,
    text: &[u8],
    kind: &str,
    unit: &str,
) -> Result<Vec<u8>, FoldedFault>
    ensures { GivesOfRows text.now (λ rows bytes. IsExportOf kind.now unit.now rows bytes.items) result }
{
    let arena = Bump::new(alloc);
    let mut rows = SampledRows {
        row: NumberedRow::new(alloc, hashing, &arena),
        known: KnownStacks::new(alloc, hashing),
        samples: WrittenSamples::new(alloc),
        ids: Vec::new(alloc),
        total: 0,
    };
    let bytes = exported_bytes(alloc, hashing, &mut rows, text, kind, unit);
    drop(rows);
    bytes
}
