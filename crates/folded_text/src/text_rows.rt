//! The rows of folded text by their stack texts: lines of one text are summed, and no name is made. So is its folded
//! report.

ghost use Rattle.std.specs.Prelude.{◌≡◌, ◌≢◌, ◌+◌, ◌^◌, ◌<◌, [], All, IfOk};
ghost use Rattle.std.specs.Prelude.{IsTrue, MatchOption, MatchResult, OnOk, length};
ghost use Rattle.profile_rows.specs.Merging.{AddsRow, AreMergedSoFar, IsStackAt};
ghost use Rattle.profile_rows.specs.Rows.{total_of};
ghost use Rattle.folded_text.specs.FoldedText.{IsFirstFault, IsLineFault, IsOfText};
ghost use Rattle.ordered_rows.specs.StackFrames.{frames_of};
ghost use Rattle.ordered_rows.specs.StackOrder.{IsJoined};
ghost use Rattle.folded_text.specs.TextRows.{AddUpTo, AddsLine, AreWithinLimits};
ghost use Rattle.ordered_rows.specs.SpelledRows.{AreTextRows, IsMeasured, IsStackText, rows_with, spelled_rows};
ghost use Rattle.folded_text.specs.TextRows.{IsTooHeavy, WeighsMoreAt};

use crate::folded::{FoldedFault, fitting, push_frames, stack_and_weight};
use crate::taking::{LineTaker, take_lines};
use basics::NoMemory;
use name_counts::{KnownNames, TextTable};
use ordered_rows::{TextRow, measured, replace_by_text};
use profile_rows::{Hashing, MAX_TOTAL, WeightedStacks};
use std::alloc::Global;
use std::marker::Model;

/// Rows of weight above 0, one for each stack text. A contract sees the rows.
#[derive(Drop)]
pub(crate) struct TextRows<'a> {
    /// The stack texts, each with the index of its row as its number.
    texts: TextTable<'a>,
    rows: Vec<TextRow<'a>>,
    total: u64,
    /// No stack text has an empty frame.
    are_joined: bool,
}

impl<'a> Model for TextRows<'a> {
    ghost use Rattle.std.specs.Prelude.{List};
    ghost use Rattle.profile_rows.specs.StackTexts.{TextState};
    ghost use Rattle.folded_text.specs.TextRows.{AreKnownTexts};

    ghost Value = { List TextState };

    ghost view = { λ sums. sums.rows.items };

    ghost invariant = { λ sums. AreKnownTexts sums.texts.texts sums.rows.items sums.total sums.are_joined };
}

/// Whether a stack text is its frames, so many of so many bytes, with a semicolon between each two.
fn is_joined(text: &str, depth: usize, bytes: usize) -> bool
    requires { IsMeasured text.now depth bytes }
    ensures { IsTrue result → IsJoined text.now }
{
    text.is_empty() || bytes + depth == text.len() + 1
}

impl<'a> TextRows<'a> {
    /// No row yet, and `hashing` says how stack texts will be hashed. Takes no memory.
    pub fn new(alloc: Global, hashing: Hashing) -> TextRows<'a>
        ensures { result ≡ [] }
    {
        TextRows {
            texts: TextTable::new(alloc, hashing),
            rows: Vec::new(alloc),
            total: 0,
            are_joined: true,
        }
    }

    /// The rows.
    pub fn rows(&self) -> &[TextRow<'a>]
        ensures rows { result.now ≡ self.now }
        ensures limits { AreWithinLimits self.now }
    {
        self.rows.as_slice()
    }

    /// What the rows weigh together. Takes no time per row.
    pub fn total(&self) -> u64 {
        self.total
    }

    /// The rows, and whether no stack text has an empty frame.
    pub fn into_rows(self) -> (Vec<TextRow<'a>>, bool)
        ensures rows { result.0.items ≡ self.entry }
        ensures limits { AreWithinLimits self.entry }
        ensures joined { IsTrue result.1 → AreTextRows self.entry }
    {
        (self.rows, self.are_joined)
    }

    /// The index of the row of a stack text, where there is one.
    fn row_of(&self, text: &str) -> Option<usize>
        ensures { MatchOption result (rows_with text.now self.now ≡ 0)
            (IsStackAt (spelled_rows self.now) (frames_of text.now)) }
    {
        let at = self.texts.number_of(text);
        if at < self.rows.len() { Some(at) } else { None }
    }

    /// Adds to the weight of a row.
    fn add_to(&mut self, at: usize, weight: u64, number: u64) -> Result<(), FoldedFault>
        requires { at < length self.old }
        ensures { MatchResult result (λ done. WeighsMoreAt at weight self.old self.new)
            (IsTooHeavy number (total_of (spelled_rows self.old) + weight)) }
    {
        if weight > MAX_TOTAL - self.total {
            return Err(FoldedFault::Heavy { line: number });
        }
        self.rows[at].add(weight);
        self.total += weight;
        Ok(())
    }

    /// Adds the row of a stack text that has none yet, where it weighs something.
    fn add(&mut self, text: &'a str, weight: u64, is_joined: bool) -> Result<(), NoMemory>
        requires new_text { rows_with text.now self.old ≡ 0 }
        requires spelled { IsStackText text.now }
        requires fits { total_of (spelled_rows self.old) + weight < 2 ^ 63 }
        requires joined { IsTrue is_joined → IsJoined text.now }
        ensures { OnOk result (AddsRow (spelled_rows self.old) (spelled_rows self.new)
            (record { stack = frames_of text.now; weight = weight })) }
    {
        if weight == 0 {
            return Ok(());
        }
        self.rows.push(TextRow::new(text, weight))?;
        let Ok(()) = self.texts.add(text) else {
            self.rows.pop();
            return Err(NoMemory);
        };
        self.total += weight;
        self.are_joined = self.are_joined && is_joined;
        Ok(())
    }

    /// Adds the row that a line spells, to the row of the same stack text where there is one.
    pub fn sum_line(&mut self, line: &'a str, number: u64) -> Result<(), FoldedFault>
        requires { All (λ byte. byte ≢ 10) line.now }
        ensures { MatchResult result (λ done. AddsLine line.now self.old self.new)
            (IsLineFault (total_of (spelled_rows self.old)) number line.now) }
    {
        let (text, weight) = stack_and_weight(line, number)?;
        if let Some(at) = self.row_of(text) {
            return self.add_to(at, weight, number);
        }
        let (depth, bytes) = measured(text);
        fitting(depth, weight, self.total, number)?;
        Ok(self.add(text, weight, is_joined(text, depth, bytes))?)
    }
}

impl<'a> LineTaker<'a> for TextRows<'a> {
    ghost is_of = { λ sums rows. AreMergedSoFar rows (spelled_rows sums) };

    fn take_line(&mut self, line: &'a str, number: u64) -> Result<(), FoldedFault> {
        self.sum_line(line, number)
    }
}

/// The rows of folded text by their stack texts.
pub(crate) fn read_text_rows<'a>(
    alloc: Global,
    hashing: Hashing,
    text: &'a [u8],
) -> Result<TextRows<'a>, FoldedFault>
    ensures { MatchResult result (IsOfText text.now AddUpTo) (IsFirstFault text.now) }
{
    let mut sums = TextRows::new(alloc, hashing);
    take_lines(text, &mut sums)?;
    Ok(sums)
}

/// Rows with the names of their stacks.
pub(crate) fn stacks_of_texts(
    alloc: Global,
    hashing: Hashing,
    rows: &[TextRow],
) -> Result<WeightedStacks, NoMemory>
    requires spelled { All (λ row. IsStackText row.text) rows.now }
    requires fits { total_of (spelled_rows rows.now) < 2 ^ 63 }
    ensures { IfOk result (λ stacks. stacks ≡ spelled_rows rows.now) }
{
    let mut known = KnownNames::new(alloc, hashing);
    let mut stacks = WeightedStacks::with_capacity(alloc, rows.len())?;
    let mut frames = Vec::new(alloc);
    for row in rows {
        replace_by_text(&mut frames, row.text())?;
        push_frames(
            alloc,
            &mut known,
            &mut stacks,
            frames.as_slice(),
            row.weight(),
        )?;
    }
    Ok(stacks)
}
