//! Folded text written.

ghost use Rattle.std.specs.Prelude.{◌≡◌, ◌++◌, ◌<◌, ◌≤◌, ◌∷◌, [], All, IfOk, OnOk, length, string_bytes};
ghost use Rattle.std.specs.Fmt.{decimal};
ghost use Rattle.folded_text.specs.FoldedText.{IsFoldedBatch, IsTextOf, folded_text_of, row_text, rows_text};
ghost use Rattle.profile_rows.specs.Limits.{most_frames};
ghost use Rattle.profile_rows.specs.Names.{IsName};
ghost use Rattle.profile_rows.specs.Values.{rows_at};

use basics::NoMemory;
use itoa::Buffer;
use ordered_rows::OrderedRows;
use profile_rows::{Batch, Stack, WeightedStacks, push_joined};
use std::alloc::{AllocError, Global};

/// Ends a line with a space and its weight.
#[inline(always)]
fn end_line(text: &mut String, weight: u64) -> Result<(), AllocError>
    ensures { OnOk result (string_bytes text.new ≡ string_bytes text.old ++ 32 ∷ decimal weight ++ 10 ∷ []) }
{
    let mut buffer = Buffer::new();
    text.push(' ')?;
    text.push_str(buffer.format(weight))?;
    text.push('\n')
}

/// Adds the line of a stack and its weight.
fn push_row(text: &mut String, stack: &Stack, weight: u64) -> Result<(), AllocError>
    ensures line { OnOk result (string_bytes text.new
        ≡ string_bytes text.old ++ row_text (record { stack = stack.now; weight = weight })) }
    ensures names { OnOk result (All IsName stack.now) }
    ensures depth { length stack.now ≤ most_frames }
{
    push_joined(text, stack.names())?;
    end_line(text, weight)
}

/// Writes each row as a line of folded text, in the order of the rows, also rows of weight 0: the names joined by
/// semicolons, a space, the weight in decimal, a line feed. Reading it gives the same rows.
///
/// # Errors
///
/// `NoMemory`.
pub fn write_stacks(alloc: Global, rows: &WeightedStacks) -> Result<Vec<u8>, NoMemory>
    ensures { IfOk result (λ text. IsTextOf rows.now text.items) }
{
    let mut text = String::new(alloc);
    for row in rows.rows() {
        push_row(&mut text, &row.stack, row.weight)?;
    }
    Ok(text.into_bytes())
}

/// Writes each row of a batch by the value of this number, counted from 0, as [`write_stacks`] does. Where rows have
/// one value, reading the text gives the batch itself.
///
/// # Errors
///
/// `NoMemory`.
pub fn write_folded(alloc: Global, batch: &Batch, value: u32) -> Result<Vec<u8>, NoMemory>
    requires { value < batch.now.width }
    ensures written { IfOk result (λ text. IsTextOf (rows_at value batch.now.rows) text.items) }
    ensures reads_back_whole { IfOk result (λ text. batch.now.width ≡ 1 → IsFoldedBatch text.items batch.now) }
{
    let mut text = String::new(alloc);
    for at in 0..batch.first().rows().len() {
        push_row(&mut text, batch.row(at).stack, batch.weight(at, value))?;
    }
    Ok(text.into_bytes())
}

/// The folded report of rows in order: each row as [`write_stacks`] writes it.
///
/// # Errors
///
/// `NoMemory`.
pub fn write_ordered(alloc: Global, rows: &OrderedRows) -> Result<Vec<u8>, NoMemory>
    ensures lines { IfOk result (λ text. text.items ≡ rows_text rows.now) }
    ensures report { IfOk result (λ text. text.items ≡ folded_text_of rows.now) }
{
    rows.facts();
    let mut text = String::new(alloc);
    for at in 0..rows.len() {
        rows.push_stack(&mut text, at)?;
        end_line(&mut text, rows.weight(at))?;
    }
    Ok(text.into_bytes())
}
