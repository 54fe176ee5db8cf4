//! Rows in the order of their stacks, of which reports are made.

ghost use Rattle.std.specs.Prelude.{◌≡◌, ◌++◌, ◌^◌, ◌<◌, ◌≤◌, All, IfOk, OnOk, length, map, string_bytes};
ghost use Rattle.std.specs.List.{join_with_byte};
ghost use Rattle.std.specs.Option.{option_copied};
ghost use Rattle.profile_rows.specs.declared.weighted_stacks.WeightedStack.{WeightedStack};
ghost use Rattle.profile_rows.specs.Aggregate.{AreWeighty, IsAscending, Weighted, aggregate_of, rows_of};
ghost use Rattle.profile_rows.specs.Merging.{row_at};
ghost use Rattle.profile_rows.specs.Limits.{most_frames};
ghost use Rattle.profile_rows.specs.Names.{IsName};
ghost use Rattle.profile_rows.specs.Rows.{kept_rows, total_of};
ghost use Rattle.profile_rows.specs.StackTexts.{AreStackTexts};
ghost use Rattle.profile_rows.specs.TopList.{AreTotalsOf};
ghost use Rattle.ordered_rows.specs.OrderedRows.{AreInOrder, rows_in};
ghost use Rattle.ordered_rows.specs.SpelledRows.{AreTextRows, IsStackText, spelled_rows};

use crate::stack_frames::replace_by_text;
use crate::text_row::TextRow;
use crate::text_stacks::TextStacks;
use basics::NoMemory;
use name_counts::{kept_totals, replace_by_names};
use profile_rows::{
    FrameTotals, Hashing, Name, StackText, WeightedStacks, aggregate_stacks, push_joined,
};
use std::alloc::{AllocError, Global};
use std::marker::Model;

/// Rows by the names of their stacks, or by their texts.
#[derive(Drop)]
pub(crate) enum InOrder<'a> {
    Named(WeightedStacks),
    Spelled(TextStacks<'a>),
}

/// Rows in the order of their stacks, each of weight above 0 and no two of one stack. Where stacks are texts, which are
/// lent, a name is made only for what an answer has. A contract sees the rows.
#[derive(Drop)]
pub struct OrderedRows<'a> {
    rows: InOrder<'a>,
}

impl<'a> Model for OrderedRows<'a> {
    ghost use Rattle.std.specs.Prelude.{List};
    ghost use Rattle.profile_rows.specs.declared.weighted_stacks.WeightedStack.{WeightedStack};
    ghost use Rattle.ordered_rows.specs.OrderedRows.{AreInOrder, rows_in};

    ghost Value = { List WeightedStack };

    ghost view = { λ ordered. rows_in ordered.rows };

    ghost invariant = { λ ordered. AreInOrder (rows_in ordered.rows) };
}

/// The rows in order that a focus and an ignored name leave.
fn kept_in_order<'a>(rows: InOrder<'a>, focus: Option<&Name>, ignored: Option<&Name>) -> InOrder<'a>
    ensures { rows_in result
        ≡ kept_rows (option_copied focus.entry) (option_copied ignored.entry) (rows_in rows.entry) }
{
    match rows {
        InOrder::Named(mut rows) => {
            rows.keep(focus, ignored);
            InOrder::Named(rows)
        }
        InOrder::Spelled(mut rows) => {
            rows.keep(focus, ignored);
            InOrder::Spelled(rows)
        }
    }
}

impl<'a> OrderedRows<'a> {
    /// Takes rows that are in order, as they are.
    pub fn named(rows: WeightedStacks) -> OrderedRows<'a>
        requires ascending { IsAscending rows }
        requires weighty { AreWeighty rows }
        ensures { result ≡ rows }
    {
        let rows = InOrder::Named(rows);
        OrderedRows { rows }
    }

    /// Puts rows in order: each stack of weight above 0 once, with the sum of its weights.
    ///
    /// # Errors
    ///
    /// `NoMemory`.
    pub fn of(alloc: Global, rows: WeightedStacks) -> Result<OrderedRows<'a>, NoMemory>
        ensures { IfOk result (λ ordered. ordered ≡ rows_of (aggregate_of rows)) }
    {
        Ok(OrderedRows::named(aggregate_stacks(alloc, rows)?))
    }

    /// Puts rows in order by the texts of their stacks, which have no empty frames. No name is made of them.
    ///
    /// # Errors
    ///
    /// `NoMemory`.
    pub fn of_rows(rows: Vec<TextRow<'a>>) -> Result<OrderedRows<'a>, NoMemory>
        requires texts { AreTextRows rows.items }
        requires spelled { All (λ row. IsStackText row.text) rows.items }
        requires fits { total_of (spelled_rows rows.items) < 2 ^ 63 }
        ensures { IfOk result (λ ordered. ordered ≡ rows_of (aggregate_of (spelled_rows rows.entry.items))) }
    {
        let rows = InOrder::Spelled(TextStacks::sorted(rows)?);
        Ok(OrderedRows { rows })
    }

    /// Puts rows in order by the texts of their stacks, which it lends. No name is made of them.
    ///
    /// # Errors
    ///
    /// `NoMemory`.
    pub fn of_texts(alloc: Global, texts: &'a [StackText]) -> Result<OrderedRows<'a>, NoMemory>
        requires { (weights : Weighted) × AreStackTexts weights texts.now }
        ensures { (weights : Weighted) → AreStackTexts weights texts.now
            → IfOk result (λ ordered. ordered ≡ rows_of weights) }
    {
        let rows = InOrder::Spelled(TextStacks::of_texts(alloc, texts)?);
        Ok(OrderedRows { rows })
    }

    /// Does nothing; its clause says that the rows are in order and that each weighs something.
    pub fn facts(&self)
        ensures { AreInOrder self.now }
    {
        let _ = &self.rows;
    }

    /// How many rows there are.
    pub fn len(&self) -> usize
        ensures { result ≡ length self.now }
    {
        match &self.rows {
            InOrder::Named(rows) => rows.rows().len(),
            InOrder::Spelled(rows) => rows.rows().len(),
        }
    }

    /// What the rows weigh together. Takes no time per row.
    pub fn total(&self) -> u64
        ensures total { result ≡ total_of self.now }
        ensures fits { total_of self.now < 2 ^ 63 }
    {
        match &self.rows {
            InOrder::Named(rows) => rows.total(),
            InOrder::Spelled(rows) => rows.total(),
        }
    }

    /// What a row weighs.
    pub fn weight(&self, at: usize) -> u64
        requires { at < length self.now }
        ensures { result ≡ (row_at self.now at).weight }
    {
        match &self.rows {
            InOrder::Named(rows) => rows.rows()[at].weight,
            InOrder::Spelled(rows) => rows.rows()[at].weight(),
        }
    }

    /// The frames of a row's stack, root first, in the place of others.
    ///
    /// # Errors
    ///
    /// `NoMemory`.
    pub fn frames<'s>(&'s self, frames: &mut Vec<&'s str>, at: usize) -> Result<(), NoMemory>
        requires { at < length self.now }
        ensures frames { OnOk result
            (map (λ frame. frame.now) frames.new.items ≡ (row_at self.now at).stack) }
        ensures names { OnOk result (All IsName (row_at self.now at).stack) }
        ensures depth { length (row_at self.now at).stack ≤ most_frames }
    {
        match &self.rows {
            InOrder::Named(rows) => Ok(replace_by_names(frames, rows.rows()[at].stack.names())?),
            InOrder::Spelled(rows) => Ok(replace_by_text(frames, rows.rows()[at].text())?),
        }
    }

    /// The rows that have the focus, where there is one, and not the ignored name, where there is one.
    pub fn keep(self, focus: Option<&Name>, ignored: Option<&Name>) -> OrderedRows<'a>
        ensures { result ≡ kept_rows (option_copied focus.entry) (option_copied ignored.entry) self.entry }
    {
        let rows = kept_in_order(self.rows, focus, ignored);
        OrderedRows { rows }
    }

    /// Adds the names of a row's stack to a text, with a semicolon between each two.
    ///
    /// # Errors
    ///
    /// `AllocError`; some of the names may then stand in the text.
    pub fn push_stack(&self, text: &mut String, at: usize) -> Result<(), AllocError>
        requires { at < length self.now }
        ensures { OnOk result (string_bytes text.new
            ≡ string_bytes text.old ++ join_with_byte 59 (row_at self.now at).stack) }
    {
        match &self.rows {
            InOrder::Named(rows) => push_joined(text, rows.rows()[at].stack.names()),
            InOrder::Spelled(rows) => text.push_str(rows.rows()[at].text()),
        }
    }

    /// What the names weigh in the rows. `hashing` says how names are hashed.
    ///
    /// # Errors
    ///
    /// `NoMemory`.
    pub fn frame_totals(&self, alloc: Global, hashing: Hashing) -> Result<FrameTotals, NoMemory>
        ensures { IfOk result (AreTotalsOf self.now) }
    {
        match &self.rows {
            InOrder::Named(rows) => kept_totals(alloc, hashing, rows, None, None),
            InOrder::Spelled(rows) => rows.frame_totals(alloc, hashing),
        }
    }
}
