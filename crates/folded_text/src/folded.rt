//! Folded text read: a line is cut, tested against the limits, and becomes a row.

ghost use Rattle.std.specs.Prelude.{ℕ, ◌≡◌, ◌≢◌, ◌+◌, ◌^◌, ◌<◌, ◌≤◌, ◌↔◌, ◌∷◌, ◌++◌, [], All, IsTrue, List};
ghost use Rattle.std.specs.Prelude.{MatchOption, MatchResult, OnOk, length, map};
ghost use Rattle.std.specs.Str.{IsUtf8};
ghost use Rattle.std.specs.Str.Parse.{IsNumeral, digits_value};
ghost use Rattle.folded_text.specs.FoldedText.{GivesBatch, HasCount, HasWeight, IsCountFault, IsFittingFault};
ghost use Rattle.folded_text.specs.FoldedText.{IsLineFault, IsRowAfter};
ghost use Rattle.profile_rows.specs.Names.{IsName};
ghost use Rattle.ordered_rows.specs.StackFrames.{frames_of};
ghost use Rattle.name_counts.specs.NumberedRows.{HasReplaced};
ghost use Rattle.profile_rows.specs.Rows.{total_of};

use crate::taking::{LineTaker, take_lines};
use basics::NoMemory;
use bstr::ByteSlice;
use name_counts::{KnownNames, NumberedRow};
use ordered_rows::{TextFrames, measured, replace_by_text};
use profile_rows::{Batch, Hashing, MAX_DEPTH, MAX_TOTAL, Stack, WeightedStacks};
use simdutf8::basic;
use std::alloc::Global;
use thiserror::Error;

/// Why bytes aren't folded text, with the line of the first fault. Lines count from 1, empty ones too.
#[derive(Clone, Copy, Debug, PartialEq, Eq, Error)]
pub enum FoldedFault {
    /// The line isn't UTF-8.
    #[error("F1 NotUtf8 line {line}")]
    NotUtf8 { line: u64 },
    /// The line has no space, or what follows its last space isn't one or more ASCII digits.
    #[error("F2 NoCount line {line}")]
    NoCount { line: u64 },
    /// The count is above 2^63 - 1.
    #[error("F3 Count line {line}")]
    Count { line: u64 },
    /// The stack has more than 65,535 frames.
    #[error("F4 Depth line {line}")]
    Depth { line: u64 },
    /// The weights so far, the line's among them, are above 2^63 - 1 together.
    #[error("F5 Heavy line {line}")]
    Heavy { line: u64 },
    /// Memory ran out.
    #[error("F6 NoMemory")]
    NoMemory,
}

impl From<NoMemory> for FoldedFault {
    ghost use Rattle.std.specs.Prelude.{◌≡◌};
    ghost use Rattle.folded_text.specs.declared.folded.FoldedFault.TheVariants.{NoMemory};

    ghost from_gives = { λ _ fault. fault ≡ NoMemory };

    fn from(_error: NoMemory) -> FoldedFault {
        FoldedFault::NoMemory
    }
}

/// Whether a text is one or more ASCII digits.
fn is_numeral(text: &str) -> bool
    ensures { IsTrue result ↔ IsNumeral 10 text.now }
{
    !text.is_empty() && text.bytes().all(|byte| byte.is_ascii_digit())
}

/// Cuts a line at its last space, where what follows is a count.
fn split_count(line: &str) -> Option<(&str, &str)>
    ensures { MatchOption result ((stack digits : List ℕ) → ¬ HasCount line.now stack digits)
        (λ parts. HasCount line.now parts.0.now parts.1.now) }
{
    let at = line.as_bytes().rfind_byte(b' ')?;
    let digits = &line[at + 1..];
    if is_numeral(digits) {
        Some((&line[..at], digits))
    } else {
        None
    }
}

/// The weight that digits write, where it is within the limit.
fn weight_from(digits: &str) -> Option<u64>
    requires { IsNumeral 10 digits.now }
    ensures { MatchOption result (2 ^ 63 ≤ digits_value 10 digits.now)
        (λ weight. (weight ≡ digits_value 10 digits.now) × (weight < 2 ^ 63)) }
{
    let mut weight = 0;
    for byte in digits.as_bytes() {
        if weight > MAX_TOTAL / 10 {
            return None;
        }
        weight = 10 * weight + u64::from(byte - b'0');
    }
    if weight <= MAX_TOTAL {
        Some(weight)
    } else {
        None
    }
}

/// The text of a line, which is tested unless it is known to be UTF-8.
pub(crate) fn text_of(line: &[u8], is_known: bool, number: u64) -> Result<&str, FoldedFault>
    requires { IsTrue is_known → IsUtf8 line.now }
    ensures { MatchResult result (λ text. text.now ≡ line.now)
        (λ fault. (fault ≡ FoldedFault.NotUtf8 number) × ¬ IsUtf8 line.now) }
{
    if is_known {
        // SAFETY: the line is UTF-8, as the function requires.
        return Ok(unsafe { str::from_utf8_unchecked(line) });
    }
    basic::from_utf8(line).map_err(|_| FoldedFault::NotUtf8 { line: number })
}

/// The stack text and the weight of a line.
///
/// # Errors
///
/// `NoCount` and `Count`, under this number.
pub fn stack_and_weight(line: &str, number: u64) -> Result<(&str, u64), FoldedFault>
    ensures { MatchResult result (λ found. HasWeight line.now found.0.now found.1) (IsCountFault number line.now) }
{
    let (stack, digits) = split_count(line).ok_or(FoldedFault::NoCount { line: number })?;
    let weight = weight_from(digits).ok_or(FoldedFault::Count { line: number })?;
    Ok((stack, weight))
}

/// Whether a row of so many frames can follow rows of the weight `earlier`.
///
/// # Errors
///
/// `Depth` and `Heavy`, under this number.
pub fn fitting(depth: usize, weight: u64, earlier: u64, number: u64) -> Result<(), FoldedFault>
    requires { earlier < 2 ^ 63 }
    ensures { MatchResult result (λ done. (depth ≤ MAX_DEPTH) × (earlier + weight < 2 ^ 63))
        (IsFittingFault earlier number depth weight) }
{
    if depth > MAX_DEPTH {
        return Err(FoldedFault::Depth { line: number });
    }
    if weight > MAX_TOTAL - earlier {
        return Err(FoldedFault::Heavy { line: number });
    }
    Ok(())
}

/// The frames of a line's stack, root first, in the place of others, and the line's weight, where its row can follow
/// rows of the weight `earlier`.
///
/// # Errors
///
/// The line's fault, under this number; `NoMemory` only where it has none.
pub fn read_frames<'a>(
    frames: &mut Vec<&'a str>,
    line: &'a str,
    earlier: u64,
    number: u64,
) -> Result<u64, FoldedFault>
    requires one_line { All (λ byte. byte ≢ 10) line.now }
    requires earlier { earlier < 2 ^ 63 }
    ensures { MatchResult result (λ weight. IsRowAfter earlier line.now
        (record { stack = map (λ frame. frame.now) frames.new.items; weight = weight }))
        (IsLineFault earlier number line.now) }
{
    let (stack, weight) = stack_and_weight(line, number)?;
    let Ok(()) = replace_by_text(frames, stack) else {
        // a line's own fault comes before `NoMemory` at it
        fitting(measured(stack).0, weight, earlier, number)?;
        return Err(FoldedFault::NoMemory);
    };
    fitting(frames.len(), weight, earlier, number)?;
    Ok(weight)
}

/// The frames of a stack text in the place of those of a row whose names are numbered, where the row of a line with
/// this text and this weight can follow rows of the weight `earlier`.
///
/// # Errors
///
/// The line's fault, under this number; `NoMemory` only where it has none.
pub fn read_stack(
    row: &mut NumberedRow,
    stack: &str,
    weight: u64,
    earlier: u64,
    number: u64,
) -> Result<(), FoldedFault>
    requires line { (line : List ℕ) × All (λ byte. byte ≢ 10) line × HasWeight line stack.now weight }
    requires earlier { earlier < 2 ^ 63 }
    ensures { (line : List ℕ) → All (λ byte. byte ≢ 10) line → HasWeight line stack.now weight → MatchResult result
        (λ done. HasReplaced (frames_of stack.now) row.old row.new × IsRowAfter earlier line
        (record { stack = frames_of stack.now; weight = weight })) (IsLineFault earlier number line) }
{
    let Ok(()) = row.replace(&mut TextFrames::of(stack)) else {
        fitting(measured(stack).0, weight, earlier, number)?;
        return Err(FoldedFault::NoMemory);
    };
    fitting(row.numbers().len(), weight, earlier, number)
}

/// Adds a row of these frames, which fits.
pub(crate) fn push_frames<'a>(
    alloc: Global,
    known: &mut KnownNames<'a>,
    rows: &mut WeightedStacks,
    frames: &[&'a str],
    weight: u64,
) -> Result<(), NoMemory>
    requires names { All IsName (map (λ frame. frame.now) frames.now) }
    requires depth { length frames.now ≤ MAX_DEPTH }
    requires fits { total_of rows.old + weight < 2 ^ 63 }
    ensures { OnOk result
        (rows.new ≡ rows.old ++ (record { stack = map (λ frame. frame.now) frames.now; weight = weight }) ∷ []) }
{
    let names = known.names_of(alloc, frames, rows.rows().last())?;
    let stack = Stack::make(names).map_err(|_| NoMemory)?;
    rows.push(stack, weight).map_err(|_| NoMemory)
}

/// A text that is read into rows. The frames of a line take the place of others in the buffer.
#[derive(Drop)]
struct Reading<'a> {
    alloc: Global,
    known: KnownNames<'a>,
    rows: WeightedStacks,
    frames: Vec<&'a str>,
}

impl<'a> LineTaker<'a> for Reading<'a> {
    ghost is_of = { λ reading rows. reading.rows ≡ rows };

    fn take_line(&mut self, line: &'a str, number: u64) -> Result<(), FoldedFault> {
        let weight = read_frames(&mut self.frames, line, self.rows.total(), number)?;
        Ok(push_frames(
            self.alloc,
            &mut self.known,
            &mut self.rows,
            self.frames.as_slice(),
            weight,
        )?)
    }
}

/// Reads folded stacks: a line for each row, its frames from root to leaf separated by semicolons, then a space and a
/// count. A line ends at its line feed, and one carriage return directly before that is dropped; the last line may lack
/// it. Empty lines are skipped, and so are empty parts between semicolons: a stack may be empty. The batch has one
/// value.
///
/// # Errors
///
/// The fault of the first line that has one, in the order of [`FoldedFault`]'s variants; `NoMemory`.
pub fn read_folded(alloc: Global, text: &[u8]) -> Result<Batch, FoldedFault>
    ensures { GivesBatch text.now result }
{
    read_folded_with(alloc, Hashing::fixed(), text)
}

/// As [`read_folded`], and `hashing` says how names are hashed.
///
/// # Errors
///
/// Those of [`read_folded`].
pub fn read_folded_with(alloc: Global, hashing: Hashing, text: &[u8]) -> Result<Batch, FoldedFault>
    ensures { GivesBatch text.now result }
{
    let mut reading = Reading {
        alloc,
        known: KnownNames::new(alloc, hashing),
        rows: WeightedStacks::new(alloc),
        frames: Vec::new(alloc),
    };
    take_lines(text, &mut reading)?;
    Ok(Batch::single(alloc, reading.rows))
}
