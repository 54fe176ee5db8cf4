//! Rows of one value put together: each stack once, in the order of stacks.

ghost use Rattle.std.specs.Prelude.{◌≡◌, ◌≢◌, ◌+◌, ◌^◌, ◌<◌, IfOk, IsSorted, MatchOption, OnOk, ℕ, length};
ghost use Rattle.profile_rows.specs.Aggregate.{aggregate_of, rows_of};
ghost use Rattle.profile_rows.specs.Merging.{AddsRow, AreSumsUpTo, by_stack, row_at};
ghost use Rattle.profile_rows.specs.Rows.{total_of};

use crate::stack::Stack;
use crate::weighted_stacks::{WeightedStack, WeightedStacks};
use basics::NoMemory;
use std::alloc::Global;

/// The place of the last row, where that has this stack.
fn last_of_stack(rows: &[WeightedStack], stack: &Stack) -> Option<usize>
    ensures { MatchOption result
        ((at : ℕ) → at + 1 ≡ length rows.now → (row_at rows.now at).stack ≢ stack.now)
        (λ at. (at + 1 ≡ length rows.now) × ((row_at rows.now at).stack ≡ stack.now)) }
{
    let count = rows.len();
    if count > 0 && rows[count - 1].stack == *stack {
        Some(count - 1)
    } else {
        None
    }
}

/// Adds a row that weighs something to sums, of which none has a stack after the row's.
fn add_sum(sums: &mut WeightedStacks, row: WeightedStack) -> Result<(), NoMemory>
    requires sums { AreSumsUpTo row.stack sums.old }
    requires some { 0 < row.weight }
    requires fits { total_of sums.old + row.weight < 2 ^ 63 }
    ensures sums { OnOk result (AreSumsUpTo row.stack sums.new) }
    ensures adds { OnOk result (AddsRow sums.old sums.new row) }
{
    let WeightedStack { stack, weight } = row;
    match last_of_stack(sums.rows(), &stack) {
        Some(at) => sums.add_weight(at, weight).map_err(|_| NoMemory)?,
        None => sums.push(stack, weight).map_err(|_| NoMemory)?,
    }
    Ok(())
}

/// Rows in the order of their stacks, those of one stack put together. A row that weighs nothing is left out.
fn put_together(alloc: Global, sorted: Vec<WeightedStack>) -> Result<WeightedStacks, NoMemory>
    requires sorted { IsSorted by_stack sorted.items }
    requires fits { total_of sorted.items < 2 ^ 63 }
    ensures { IfOk result (λ sums. sums ≡ rows_of (aggregate_of sorted.items)) }
{
    let mut sums = WeightedStacks::new(alloc);
    for row in sorted {
        if row.weight > 0 {
            add_sum(&mut sums, row)?;
        }
    }
    Ok(sums)
}

/// Each stack of weight above 0 once, with the sum of its weights, in the order of stacks.
///
/// # Errors
///
/// `NoMemory`.
pub fn aggregate_stacks(alloc: Global, rows: WeightedStacks) -> Result<WeightedStacks, NoMemory>
    ensures { IfOk result (λ sums. sums ≡ rows_of (aggregate_of rows)) }
{
    let mut rows = rows.into_rows();
    rows.sort_by(|left, right| left.stack.cmp(&right.stack))?;
    put_together(alloc, rows)
}
