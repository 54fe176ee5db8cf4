//! Batches: rows that are read, lent, given away and put together, each in every public way.

use crate::reports;
use crate::rows::{add_folded, width_of};
use crate::scripts::{Made, Words, Wrong};
use profile_rows::aggregate_stacks;
use stack_text::{
    Batch, FoldedFault, Hashing, LineSums, NoMemory, OrderedRows, OwnedRow, Stack, WeightedStacks,
    Weights, aggregate, export_folded, folded_totals, merge_lines, read_folded, read_folded_with,
    read_ordered, write_ordered, write_stacks,
};
use std::alloc::Global;

/// A command over rows.
#[derive(Clone, Copy)]
pub(crate) struct Asked<'a> {
    pub(crate) words: Words<'a>,
    pub(crate) input: &'a [u8],
    /// Where hashes begin, elsewhere than by default. No answer depends on it.
    pub(crate) hashing: Hashing,
}

impl Asked<'_> {
    /// Whether the input is folded text. It is rows with values in brackets where the command has a width.
    pub(crate) fn has_folded_text(&self) -> bool {
        !self.words.has("width")
    }
}

/// Runs a command over rows.
pub(crate) fn run(words: Words, input: &[u8], made: &mut Made) {
    let hashing = Hashing::of_key(7);
    let asked = Asked {
        words,
        input,
        hashing,
    };
    if asked.has_folded_text() {
        run_text(asked, made);
    } else {
        run_rows(asked, made);
    }
}

fn run_rows(asked: Asked, made: &mut Made) {
    let width = width_of(asked.words, made);
    let batch = crate::rows::batch_of(width, asked.input, made);
    run_batch(asked, &batch, made);
    drop(batch);
}

fn run_text(asked: Asked, made: &mut Made) {
    match read_folded(made.alloc(), asked.input) {
        Ok(batch) => {
            run_batch(asked, &batch, made);
            drop(batch);
        }
        Err(fault) => refuse_text(asked, fault, made),
    }
}

fn run_batch(asked: Asked, batch: &Batch, made: &mut Made) {
    match asked.words.word(0) {
        "rows" => write(asked, batch, made),
        "aggregate" => put_together(asked, batch, made),
        _ => reports::run(asked, batch, made),
    }
}

/// The first fault of folded text, which each way to read it has. What adds up lines has those before it.
fn refuse_text(asked: Asked, fault: FoldedFault, made: &mut Made) {
    let (alloc, hashing, text) = (made.alloc(), asked.hashing, asked.input);
    made.refuse(&fault);
    let faults = [
        read_folded_with(alloc, hashing, text).err(),
        read_ordered(alloc, hashing, text).err(),
        folded_totals(alloc, hashing, text).err(),
        export_folded(alloc, hashing, text, "cpu", "ns").err(),
    ];
    made.agree("another reading", faults == [Some(fault); 4]);
    agree_on_lines_before(asked, fault, made);
}

fn agree_on_lines_before(asked: Asked, fault: FoldedFault, made: &mut Made) {
    let mut sums = LineSums::new(made.alloc(), asked.hashing);
    let added = sums.add(asked.input);
    made.agree("LineSums::add", added.fault == Some(fault));
    agree_on_lines(asked, added.len, sums.stacks(), made);
    drop(sums);
}

/// Whether the lines in so many bytes have these sums.
fn agree_on_lines(
    asked: Asked,
    len: usize,
    sums: Result<WeightedStacks, NoMemory>,
    made: &mut Made,
) {
    let before = asked.input.get(..len).unwrap_or(asked.input);
    match sums {
        Ok(sums) => made.compare(
            "LineSums::stacks",
            merge_lines(made.alloc(), asked.hashing, before),
            &sums,
        ),
        Err(_) => made.fail(Wrong::NoMemory),
    }
}

/// `rows`, `rows width 2`: why rows are refused, and those that aren't, as folded text by each value, with the totals.
fn write(asked: Asked, batch: &Batch, made: &mut Made) {
    add_folded(batch, made);
    agree_on_lent_rows(batch, made);
    agree_on_given_rows(batch, made);
    agree_on_stacks(batch.first(), made);
    if asked.has_folded_text() {
        let again = read_folded_with(made.alloc(), asked.hashing, asked.input);
        made.compare("read_folded_with", again, batch);
    }
}

fn agree_on_lent_rows(batch: &Batch, made: &mut Made) {
    let mut lent = Batch::new(made.alloc(), batch.width());
    for row in batch.rows() {
        if let Some(stack) = made.done(row.stack.clone()) {
            push(&mut lent, stack, row.weights, made);
        }
    }
    made.agree("Batch::rows", lent == *batch);
    drop(lent);
}

fn push(batch: &mut Batch, stack: Stack, weights: Weights, made: &mut Made) {
    if batch.push(stack, weights).is_err() {
        made.fail(Wrong::Missing);
    }
}

fn agree_on_given_rows(batch: &Batch, made: &mut Made) {
    match Batch::with_capacity(made.alloc(), batch.width(), batch.len()) {
        Ok(mut given) => {
            give_rows(batch, &mut given, made);
            made.agree("Batch::into_rows", given == *batch);
            drop(given);
        }
        Err(_) => made.fail(Wrong::NoMemory),
    }
}

fn give_rows(batch: &Batch, given: &mut Batch, made: &mut Made) {
    let rows = rows_of(made.alloc(), batch);
    if let Some(rows) = made.done(rows) {
        for row in rows {
            push(given, row.stack, row.weights, made);
        }
    }
}

fn rows_of(alloc: Global, batch: &Batch) -> Result<Vec<OwnedRow>, NoMemory> {
    batch.share()?.into_rows(alloc)
}

fn agree_on_stacks(stacks: &WeightedStacks, made: &mut Made) {
    match WeightedStacks::with_capacity(made.alloc(), stacks.rows().len()) {
        Ok(mut given) => {
            give_stacks(stacks, &mut given, made);
            made.agree("WeightedStacks::into_rows", given == *stacks);
            drop(given);
        }
        Err(_) => made.fail(Wrong::NoMemory),
    }
}

fn give_stacks(stacks: &WeightedStacks, given: &mut WeightedStacks, made: &mut Made) {
    if let Some(shared) = made.done(stacks.share()) {
        for row in shared.into_rows() {
            if given.push(row.stack, row.weight).is_err() {
                made.fail(Wrong::Missing);
            }
        }
    }
}

/// `aggregate`, `aggregate width 2`: each stack once, with its sum of each value.
/// `aggregate alone` goes no other way.
fn put_together(asked: Asked, batch: &Batch, made: &mut Made) {
    match aggregate(made.alloc(), batch) {
        Ok(sums) => {
            add_sums(asked, batch, &sums, made);
            drop(sums);
        }
        Err(_) => made.fail(Wrong::NoMemory),
    }
}

fn add_sums(asked: Asked, batch: &Batch, sums: &Batch, made: &mut Made) {
    add_folded(sums, made);
    if asked.has_folded_text() && !asked.words.has("alone") {
        agree_on_sums(batch, sums.first(), made);
        agree_on_order(asked, sums.first(), made);
    }
}

/// Whether rows of folded text have these sums.
fn agree_on_sums(batch: &Batch, sums: &WeightedStacks, made: &mut Made) {
    let alloc = made.alloc();
    match batch.first().share() {
        Ok(stacks) => made.compare("aggregate_stacks", aggregate_stacks(alloc, stacks), sums),
        Err(_) => made.fail(Wrong::NoMemory),
    }
}

/// Whether the text in order has these sums.
fn agree_on_order(asked: Asked, sums: &WeightedStacks, made: &mut Made) {
    match read_ordered(made.alloc(), asked.hashing, asked.input) {
        Ok(ordered) => {
            agree_on_text(&ordered, sums, made);
            drop(ordered);
        }
        Err(_) => made.fail(Wrong::Missing),
    }
}

fn agree_on_text(ordered: &OrderedRows, sums: &WeightedStacks, made: &mut Made) {
    let alloc = made.alloc();
    match write_stacks(alloc, sums) {
        Ok(text) => made.compare("read_ordered", write_ordered(alloc, ordered), &text),
        Err(_) => made.fail(Wrong::NoMemory),
    }
}
