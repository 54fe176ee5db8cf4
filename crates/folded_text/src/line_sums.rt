//! Folded text that comes in pieces, summed by its stack texts.

ghost use Rattle.std.specs.Prelude.{◌≡◌, ◌≢◌, ◌+◌, ◌<◌, ◌≤◌, ◌^◌, [], All, IfOk, MatchOption, MatchResult, OnErr};
ghost use Rattle.std.specs.Prelude.{◌==◌, drop, length};
ghost use Rattle.std.specs.Str.Lines.{strip_carriage_return};
ghost use Rattle.profile_rows.specs.Aggregate.{aggregate_of};
ghost use Rattle.profile_rows.specs.Merging.{AddsRow, IsStackAt};
ghost use Rattle.profile_rows.specs.Rows.{total_of};
ghost use Rattle.folded_text.specs.FoldedText.{HasWeight, IsCountFault, IsLineFault};
ghost use Rattle.ordered_rows.specs.StackFrames.{frames_of};
ghost use Rattle.folded_text.specs.LineSums.{AreAddedLines, IsFirstLine};
ghost use Rattle.folded_text.specs.TextRows.{AddsLine, AreWithinLimits, IsTooHeavy, WeighsMoreAt};
ghost use Rattle.ordered_rows.specs.SpelledRows.{IsStackText, rows_with, spelled_rows};

use crate::folded::{FoldedFault, fitting, stack_and_weight, text_of};
use crate::merged::sorted_stacks;
use basics::NoMemory;
use bstr::ByteSlice;
use indexmap::IndexMap;
use ordered_rows::{TextRow, measured};
use profile_rows::{Hashing, MAX_TOTAL, WeightedStacks};
use std::alloc::Global;
use std::marker::Model;

/// How far a text was added.
#[derive(Drop)]
pub struct AddedLines {
    /// How many bytes the lines have that were added.
    pub len: usize,
    /// The fault of the line after them, where there is one.
    pub fault: Option<FoldedFault>,
}

/// The rows of folded text that comes in pieces, those of one stack text summed. It keeps a copy of each stack text,
/// so a piece can go once it was added. A contract sees the rows.
#[derive(Drop)]
pub struct LineSums {
    alloc: Global,
    hashing: Hashing,
    /// What each stack text weighs.
    weights: IndexMap<String, u64, Hashing>,
    total: u64,
    /// How many bytes the stack texts have.
    bytes: usize,
}

impl Model for LineSums {
    ghost use Rattle.std.specs.Prelude.{List};
    ghost use Rattle.profile_rows.specs.StackTexts.{TextState};
    ghost use Rattle.folded_text.specs.LineSums.{AreKeptTexts, kept_rows};

    ghost Value = { List TextState };

    ghost view = { λ sums. kept_rows sums.weights.entries };

    ghost invariant = { λ sums. AreKeptTexts (kept_rows sums.weights.entries) sums.total };
}

/// A line without the carriage return that it may end with.
fn without_return(line: &[u8]) -> &[u8]
    ensures { result.now ≡ strip_carriage_return line.now }
{
    line.strip_suffix(b"\r").unwrap_or(line)
}

/// A text's first line, without its end, and how many bytes it has with it.
fn first_line(text: &[u8]) -> (&[u8], usize)
    requires { 0 < length text.now }
    ensures { IsFirstLine text.now result.0.now result.1 }
{
    match text.find_byte(b'\n') {
        Some(end) => (without_return(&text[..end]), end + 1),
        None => (text, text.len()),
    }
}

/// The stack text and the weight of a line, which has to be UTF-8.
fn weighed(line: &[u8], number: u64) -> Result<(&str, u64), FoldedFault>
    ensures { MatchResult result (λ found. HasWeight line.now found.0.now found.1) (IsCountFault number line.now) }
{
    stack_and_weight(text_of(line, false, number)?, number)
}

impl LineSums {
    /// No row yet, and `hashing` says how stack texts and names are hashed. Takes no memory.
    pub fn new(alloc: Global, hashing: Hashing) -> LineSums
        ensures { result ≡ [] }
    {
        LineSums {
            alloc,
            hashing,
            weights: IndexMap::with_hasher(alloc, hashing),
            total: 0,
            bytes: 0,
        }
    }

    /// Whether there is no row.
    pub fn is_empty(&self) -> bool
        ensures { result ≡ (length self.now == 0) }
    {
        self.weights.is_empty()
    }

    /// How many bytes the stack texts have that it keeps.
    pub fn bytes(&self) -> usize {
        self.bytes
    }

    /// The index of the row of a stack text, where there is one.
    fn row_of(&self, text: &str) -> Option<usize>
        ensures { MatchOption result (rows_with text.now self.now ≡ 0)
            (IsStackAt (spelled_rows self.now) (frames_of text.now)) }
    {
        self.weights.get_index_of(text)
    }

    /// Adds to the weight of a row.
    fn add_to(&mut self, at: usize, weight: u64, number: u64) -> Result<(), FoldedFault>
        requires { at < length self.old }
        ensures added { MatchResult result (λ done. WeighsMoreAt at weight self.old self.new)
            (IsTooHeavy number (total_of (spelled_rows self.old) + weight)) }
        ensures kept { OnErr result (self.new ≡ self.old) }
    {
        if weight > MAX_TOTAL - self.total {
            return Err(FoldedFault::Heavy { line: number });
        }
        self.weights[at] += weight;
        self.total += weight;
        Ok(())
    }

    /// Adds the row of a stack text that has none yet, where it weighs something.
    fn add_text(&mut self, text: &str, weight: u64) -> Result<(), NoMemory>
        requires new_text { rows_with text.now self.old ≡ 0 }
        requires spelled { IsStackText text.now }
        requires fits { total_of (spelled_rows self.old) + weight < 2 ^ 63 }
        ensures { MatchResult result (λ done. AddsRow (spelled_rows self.old) (spelled_rows self.new)
            (record { stack = frames_of text.now; weight = weight })) (λ fault. self.new ≡ self.old) }
    {
        if weight == 0 {
            return Ok(());
        }
        let kept = String::from_str(self.alloc, text)?;
        self.weights.insert(kept, weight)?;
        self.total += weight;
        self.bytes = self.bytes.saturating_add(text.len());
        Ok(())
    }

    /// Adds the row that a line spells, to the row of the same stack text where there is one.
    fn add_line(&mut self, line: &[u8], number: u64) -> Result<(), FoldedFault>
        requires { All (λ byte. byte ≢ 10) line.now }
        ensures added { MatchResult result (λ done. AddsLine line.now self.old self.new)
            (IsLineFault (total_of (spelled_rows self.old)) number line.now) }
        ensures kept { OnErr result (self.new ≡ self.old) }
    {
        let (text, weight) = weighed(line, number)?;
        if let Some(at) = self.row_of(text) {
            return self.add_to(at, weight, number);
        }
        fitting(measured(text).0, weight, self.total, number)?;
        Ok(self.add_text(text, weight)?)
    }

    /// Adds whole lines up to the first that has a fault. Neither that fault nor running out of memory leaves a trace.
    /// Lines count from 1 in each text.
    pub fn add(&mut self, text: &[u8]) -> AddedLines
        ensures within { result.len ≤ length text.now }
        ensures added { AreAddedLines text.now (drop result.len text.now) self.old self.new result.fault }
    {
        let mut len = 0;
        let mut number = 1;
        while len < text.len() {
            let (line, size) = first_line(&text[len..]);
            if !line.is_empty() {
                if let Err(fault) = self.add_line(line, number) {
                    let fault = Some(fault);
                    return AddedLines { len, fault };
                }
            }
            len += size;
            number += 1;
        }
        AddedLines { len, fault: None }
    }

    /// The rows, in the order in which their stack texts came.
    fn rows(&self) -> Result<Vec<TextRow>, NoMemory>
        ensures rows { IfOk result (λ rows. rows.items ≡ self.now) }
        ensures limits { AreWithinLimits self.now }
    {
        let mut rows = Vec::with_capacity(self.alloc, self.weights.len())?;
        for (text, weight) in self.weights.iter() {
            rows.push(TextRow::new(text.as_str(), *weight))?;
        }
        Ok(rows)
    }

    /// The rows with the names of their stacks, in the order of the stack texts.
    ///
    /// # Errors
    ///
    /// `NoMemory`.
    pub fn stacks(&self) -> Result<WeightedStacks, NoMemory>
        ensures { IfOk result (λ stacks. aggregate_of stacks ≡ aggregate_of (spelled_rows self.now)) }
    {
        sorted_stacks(self.alloc, self.hashing, self.rows()?)
    }
}
