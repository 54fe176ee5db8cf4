//! Rows as scripts spell them: as folded text, or each as a stack and its values: `main;a [3, 0]`.

use crate::scripts::{Made, Words, Wrong};
use stack_text::{Batch, Name, Stack, Weights, Width, write_folded};

/// The width that the words say.
pub fn width_of(words: Words, made: &mut Made) -> Width {
    let width = made.number_after(words, "width", 1);
    match Width::new(width) {
        Some(width) => width,
        None => {
            made.fail(Wrong::Command);
            Width::one()
        }
    }
}

/// The names of a stack. Empty ones count nothing.
pub(crate) fn names_of(frames: &str, made: &mut Made) -> Vec<Name> {
    let mut names = Vec::new(made.alloc());
    for frame in frames.split(';') {
        if !frame.is_empty() {
            add_name(frame, &mut names, made);
        }
    }
    names
}

fn add_name(frame: &str, names: &mut Vec<Name>, made: &mut Made) {
    match Name::make(made.alloc(), frame) {
        Ok(name) => made.keep(names, name),
        Err(_) => made.fail(Wrong::Line),
    }
}

/// The stack of frames that are joined by semicolons.
pub(crate) fn stack_of(frames: &str, made: &mut Made) -> Option<Stack> {
    let stack = Stack::make(names_of(frames, made));
    made.done(stack)
}

fn ends_number(ch: char) -> bool {
    !ch.is_ascii_digit()
}

/// The values of a row.
pub(crate) fn values_of(line: &str, made: &mut Made) -> Vec<u64> {
    let (_, list) = line.rsplit_once('[').unwrap_or(("", ""));
    numbers_of(list, made)
}

/// The numbers in a text, with anything but digits between them.
pub fn numbers_of(text: &str, made: &mut Made) -> Vec<u64> {
    let mut numbers = Vec::new(made.alloc());
    for number in text.split(ends_number) {
        if !number.is_empty() {
            let number = made.number(number);
            made.keep(&mut numbers, number);
        }
    }
    numbers
}

/// Adds a row to a batch, or tells why it is refused, and how many frames come back.
pub(crate) fn push_row(batch: &mut Batch, frames: &str, weights: Weights, made: &mut Made) {
    let Some(stack) = stack_of(frames, made) else {
        return;
    };
    if let Err(refused) = batch.push(stack, weights) {
        made.refuse(&refused.fault);
        made.say(&format_args!("back {} frames", refused.back.names().len()));
    }
}

fn push_line(batch: &mut Batch, line: &str, made: &mut Made) {
    let (frames, _) = line.rsplit_once('[').unwrap_or(("", ""));
    match Weights::make(values_of(line, made).as_slice()) {
        Some(weights) => push_row(batch, frames.trim_end(), weights, made),
        None => made.fail(Wrong::Line),
    }
}

/// The batch of rows with values in brackets. It tells of those that the batch refuses.
pub(crate) fn batch_of(width: Width, input: &[u8], made: &mut Made) -> Batch {
    let mut batch = Batch::new(made.alloc(), width);
    for line in made.text_of(input).lines() {
        push_line(&mut batch, line, made);
    }
    batch
}

/// Adds a line: `total [3, 0]`.
pub fn add_total(total: &Weights, made: &mut Made) {
    made.say(&format_args!("total {:?}", total.values()));
}

/// Adds a batch as folded text by each of its values, one after the other.
pub(crate) fn add_values(batch: &Batch, made: &mut Made) {
    let alloc = made.alloc();
    for value in 0..batch.width().get() {
        made.add_made(write_folded(alloc, batch, value));
    }
}

/// The same, and its total.
pub(crate) fn add_folded(batch: &Batch, made: &mut Made) {
    add_values(batch, made);
    add_total(&batch.total(), made);
}
