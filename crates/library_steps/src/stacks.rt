//! The stacks of a tree, as folded text.

ghost use Rattle.std.specs.Prelude.{◌<◌};

use crate::scripts::{Made, Wrong};
use call_tree::CallTree;
use profile_rows::aggregate_stacks;
use stack_text::{Batch, NoMemory, OrderedRows, WeightedStacks, write_ordered, write_stacks};
use std::alloc::Global;

/// Adds the stacks of a value, which are the same by their texts and by the rows of the tree.
pub fn add_stacks(tree: &CallTree, value: u32, made: &mut Made) {
    if value >= tree.width().get() {
        return made.fail(Wrong::Missing);
    }
    let by_texts = folded_by_texts(made.alloc(), tree, value);
    match tree.weighted_stacks(made.alloc(), value) {
        Ok(stacks) => {
            agree_on_stacks(tree, value, &stacks, made);
            add_written(&stacks, by_texts, made);
            drop(stacks);
        }
        Err(_) => {
            made.fail(Wrong::NoMemory);
            drop(by_texts);
        }
    }
}

fn add_written(stacks: &WeightedStacks, by_texts: Result<Vec<u8>, NoMemory>, made: &mut Made) {
    let Ok(text) = write_stacks(made.alloc(), stacks) else {
        return made.fail(Wrong::NoMemory);
    };
    made.add(text.as_slice());
    made.compare("CallTree::stack_texts", by_texts, &text);
    drop(text);
}

fn agree_on_stacks(tree: &CallTree, value: u32, stacks: &WeightedStacks, made: &mut Made) {
    match tree.rows(made.alloc()) {
        Ok(rows) => {
            agree_on_sums(&rows, value, stacks, made);
            drop(rows);
        }
        Err(_) => made.fail(Wrong::NoMemory),
    }
}

fn agree_on_sums(rows: &Batch, value: u32, stacks: &WeightedStacks, made: &mut Made) {
    let alloc = made.alloc();
    if value >= rows.width().get() {
        return made.fail(Wrong::Missing);
    }
    match rows.weighted_stacks(alloc, value) {
        Ok(rows) => made.compare("CallTree::rows", aggregate_stacks(alloc, rows), stacks),
        Err(_) => made.fail(Wrong::NoMemory),
    }
}

fn folded_by_texts(alloc: Global, tree: &CallTree, value: u32) -> Result<Vec<u8>, NoMemory>
    requires { value < tree.now.width }
{
    let texts = tree.stack_texts(alloc, value)?;
    let rows = OrderedRows::of_texts(alloc, texts.as_slice())?;
    write_ordered(alloc, &rows)
}
