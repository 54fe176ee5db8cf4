//! Folded text read into fewer rows than it has lines.

ghost use Rattle.std.specs.Prelude.{◌≡◌, ◌^◌, ◌<◌, All, IfOk};
ghost use Rattle.profile_rows.specs.Aggregate.{aggregate_of, rows_of};
ghost use Rattle.profile_rows.specs.Rows.{total_of};
ghost use Rattle.folded_text.specs.FoldedText.{GivesOfRows};
ghost use Rattle.ordered_rows.specs.SpelledRows.{IsStackText, spelled_rows};

use crate::folded::FoldedFault;
use crate::text_rows::{TextRows, read_text_rows, stacks_of_texts};
use basics::NoMemory;
use ordered_rows::{OrderedRows, TextRow};
use profile_rows::{Hashing, WeightedStacks};
use std::alloc::Global;

/// Rows of stack texts, in the order of these. Neighbours then begin with the same frames, and less is looked up.
pub(crate) fn sorted_stacks(
    alloc: Global,
    hashing: Hashing,
    rows: Vec<TextRow>,
) -> Result<WeightedStacks, NoMemory>
    requires spelled { All (λ row. IsStackText row.text) rows.items }
    requires fits { total_of (spelled_rows rows.items) < 2 ^ 63 }
    ensures { IfOk result (λ stacks. aggregate_of stacks ≡ aggregate_of (spelled_rows rows.entry.items)) }
{
    let mut rows = rows;
    rows.sort_by(|left, right| left.cmp_text(right))?;
    stacks_of_texts(alloc, hashing, rows.as_slice())
}

/// The rows of folded text, those of one stack text merged and their weights summed: as
/// [`read_folded`](crate::read_folded), and every report on them is the same, in fewer rows. They are in the order of
/// their texts. `hashing` says how stack texts and names are hashed.
///
/// # Errors
///
/// Those of [`read_folded`](crate::read_folded).
pub fn merge_lines(
    alloc: Global,
    hashing: Hashing,
    text: &[u8],
) -> Result<WeightedStacks, FoldedFault>
    ensures { GivesOfRows text.now (λ rows merged. aggregate_of merged ≡ aggregate_of rows) result }
{
    let sums = read_text_rows(alloc, hashing, text)?;
    let (rows, _are_joined) = sums.into_rows();
    Ok(sorted_stacks(alloc, hashing, rows)?)
}

/// The rows of stack texts in order: by their texts where none has an empty frame, and else by names.
fn in_order<'a>(
    alloc: Global,
    hashing: Hashing,
    sums: TextRows<'a>,
) -> Result<OrderedRows<'a>, NoMemory>
    ensures { IfOk result (λ ordered. ordered ≡ rows_of (aggregate_of (spelled_rows sums.entry))) }
{
    let (rows, are_joined) = sums.into_rows();
    if are_joined {
        return OrderedRows::of_rows(rows);
    }
    let stacks = stacks_of_texts(alloc, hashing, rows.as_slice())?;
    OrderedRows::of(alloc, stacks)
}

/// Reads folded stacks, as [`read_folded`](crate::read_folded) does, and puts their rows in order. `hashing` says how
/// stack texts and names are hashed.
///
/// # Errors
///
/// Those of [`read_folded`](crate::read_folded).
pub fn read_ordered<'a>(
    alloc: Global,
    hashing: Hashing,
    text: &'a [u8],
) -> Result<OrderedRows<'a>, FoldedFault>
    ensures { GivesOfRows text.now (λ rows ordered. ordered ≡ rows_of (aggregate_of rows)) result }
{
    let sums = read_text_rows(alloc, hashing, text)?;
    Ok(in_order(alloc, hashing, sums)?)
}
