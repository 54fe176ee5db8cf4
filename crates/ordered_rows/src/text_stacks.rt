//! Rows whose stacks are texts, in the order of their stacks.

ghost use Rattle.std.specs.Prelude.{◌≡◌, ◌^◌, ◌<◌, All, IfOk, filter, map};
ghost use Rattle.std.specs.Option.{option_copied};
ghost use Rattle.profile_rows.specs.Aggregate.{Weighted, aggregate_of, rows_of};
ghost use Rattle.profile_rows.specs.Rows.{has_name, is_kept, kept_rows, total_of};
ghost use Rattle.profile_rows.specs.StackTexts.{AreStackTexts, plain_text};
ghost use Rattle.profile_rows.specs.TopList.{AreTotalsOf};
ghost use Rattle.ordered_rows.specs.StackFrames.{frames_of};
ghost use Rattle.ordered_rows.specs.SpelledRows.{AreJoinedTexts, AreTextRows, IsStackText, spelled_rows};

use crate::counting::count_rows;
use crate::stack_frames::TextFrames;
use crate::text_row::TextRow;
use basics::NoMemory;
use bumpalo::Bump;
use name_counts::{CountedRows, FrameSource};
use profile_rows::{FrameTotals, HasFrames, Hashing, Name, StackText, keeps};
use std::alloc::Global;
use std::marker::Model;

/// Rows whose stacks are texts without empty frames, and what they weigh together. A contract sees the rows.
#[derive(Drop)]
pub(crate) struct TextStacks<'a> {
    rows: Vec<TextRow<'a>>,
    total: u64,
}

impl<'a> Model for TextStacks<'a> {
    ghost use Rattle.std.specs.Prelude.{List, ◌≡◌, ◌<◌, ◌^◌};
    ghost use Rattle.profile_rows.specs.declared.weighted_stacks.WeightedStack.{WeightedStack};
    ghost use Rattle.profile_rows.specs.Rows.{total_of};
    ghost use Rattle.ordered_rows.specs.SpelledRows.{AreJoinedTexts, spelled_rows};

    ghost Value = { List WeightedStack };

    ghost view = { λ stacks. spelled_rows stacks.rows.items };

    ghost invariant = { λ stacks. AreJoinedTexts stacks.rows.items
        × (stacks.total ≡ total_of (spelled_rows stacks.rows.items)) × (stacks.total < 2 ^ 63) };
}

/// Whether a stack text has a frame of this name.
fn text_has_frame(text: &str, name: &Name) -> bool
    ensures { result ≡ has_name name.now (frames_of text.now) }
{
    let mut frames = TextFrames::of(text);
    while let Some(frame) = frames.next_frame() {
        if name.text() == frame {
            return true;
        }
    }
    false
}

impl<'a> HasFrames for TextRow<'a> {
    ghost frames = { λ row. frames_of row.text };

    fn has_frame(&self, name: &Name) -> bool {
        text_has_frame(self.text(), name)
    }
}

/// Takes out the rows without the focus and those with the ignored name.
fn keep_rows(rows: &mut Vec<TextRow>, focus: Option<&Name>, ignored: Option<&Name>)
    ensures { rows.new.items
        ≡ filter (λ row. is_kept (option_copied focus.entry) (option_copied ignored.entry) (frames_of row.text))
        rows.old.items }
{
    rows.retain(|row| keeps(row, focus, ignored));
}

/// What rows weigh together.
fn total_of_texts(rows: &[TextRow]) -> u64
    requires { total_of (spelled_rows rows.now) < 2 ^ 63 }
    ensures { result ≡ total_of (spelled_rows rows.now) }
{
    let mut total = 0;
    for row in rows {
        total += row.weight();
    }
    total
}

/// The rows with their texts lent.
fn lent_rows<'a>(alloc: Global, texts: &'a [StackText]) -> Result<Vec<TextRow<'a>>, NoMemory>
    ensures { IfOk result (λ rows. rows.items ≡ map plain_text texts.now) }
{
    let rows = texts
        .iter()
        .map(|row| TextRow::new(row.text.as_str(), row.weight));
    Ok(rows.collect(alloc)?)
}

impl<'a> TextStacks<'a> {
    /// Rows, sorted.
    pub fn sorted(rows: Vec<TextRow<'a>>) -> Result<TextStacks<'a>, NoMemory>
        requires texts { AreTextRows rows.items }
        requires spelled { All (λ row. IsStackText row.text) rows.items }
        requires fits { total_of (spelled_rows rows.items) < 2 ^ 63 }
        ensures { IfOk result (λ stacks. stacks ≡ rows_of (aggregate_of (spelled_rows rows.entry.items))) }
    {
        let total = total_of_texts(rows.as_slice());
        let mut rows = rows;
        rows.sort_by(|left, right| left.cmp_text(right))?;
        Ok(TextStacks { rows, total })
    }

    /// Rows of these texts, sorted.
    pub fn of_texts(alloc: Global, texts: &'a [StackText]) -> Result<TextStacks<'a>, NoMemory>
        requires { (weights : Weighted) × AreStackTexts weights texts.now }
        ensures { (weights : Weighted) → AreStackTexts weights texts.now
            → IfOk result (λ stacks. stacks ≡ rows_of weights) }
    {
        TextStacks::sorted(lent_rows(alloc, texts)?)
    }

    /// The rows.
    pub fn rows(&self) -> &[TextRow<'a>]
        ensures rows { spelled_rows result.now ≡ self.now }
        ensures joined { AreJoinedTexts result.now }
    {
        self.rows.as_slice()
    }

    /// What the rows weigh together.
    pub fn total(&self) -> u64
        ensures total { result ≡ total_of self.now }
        ensures fits { total_of self.now < 2 ^ 63 }
    {
        self.total
    }

    /// Takes out the rows without the focus and those with the ignored name. Takes no memory.
    pub fn keep(&mut self, focus: Option<&Name>, ignored: Option<&Name>)
        ensures { self.new ≡ kept_rows (option_copied focus.entry) (option_copied ignored.entry) self.old }
    {
        keep_rows(&mut self.rows, focus, ignored);
        self.total = total_of_texts(self.rows.as_slice());
    }

    /// What the names weigh in the rows.
    pub fn frame_totals(&self, alloc: Global, hashing: Hashing) -> Result<FrameTotals, NoMemory>
        ensures { IfOk result (AreTotalsOf self.now) }
    {
        let arena = Bump::new(alloc);
        let mut counted = CountedRows::new(alloc, hashing, &arena);
        count_rows(&mut counted, self.rows.as_slice())?;
        counted.totals(alloc)?.keep(alloc)
    }
}
