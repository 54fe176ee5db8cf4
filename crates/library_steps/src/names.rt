//! Names, stacks and numbers with limits.

use crate::rows::{names_of, stack_of, values_of};
use crate::scripts::{Made, Words, Wrong, first_line};
use flame_report::{Columns, Label};
use stack_text::{Name, Stack, Weights, Width};

/// `name`: the input as a name. One that is kept, and the label of a copy, have its text.
pub(crate) fn make_name(input: &[u8], made: &mut Made) {
    match Name::make(made.alloc(), made.text_of(input)) {
        Ok(name) => add_name(&name, made),
        Err(fault) => made.refuse(&fault),
    }
}

fn add_name(name: &Name, made: &mut Made) {
    made.say(&name.text());
    made.compare("Name::keep", Name::keep(made.alloc(), name.text()), name);
    if let Some(copy) = made.done(name.clone()) {
        let label = Label::of(copy);
        made.agree("Label::of", label.text() == name.text());
        drop(label);
    }
}

/// `clean`: the name of a text of a profile, or none.
pub(crate) fn clean_name(input: &[u8], made: &mut Made) {
    match Name::clean(made.alloc(), made.text_of(input)) {
        Ok(Some(name)) => made.say(&name.text()),
        Ok(None) => made.say(&"none"),
        Err(_) => made.fail(Wrong::NoMemory),
    }
}

/// `stack`: how many frames the stack of a line has, or how many names come back.
pub(crate) fn make_stack(input: &[u8], made: &mut Made) {
    let (frames, _) = first_line(made.text_of(input));
    let (count, what) = match Stack::make(names_of(frames, made)) {
        Ok(stack) => (stack.names().len(), "frames"),
        Err(names) => (names.len(), "names come back"),
    };
    made.say(&format_args!("{count} {what}"));
}

/// `compare`: how the stack of a line stands to that of the next, and whether they are equal.
pub(crate) fn compare(input: &[u8], made: &mut Made) {
    let text = made.text_of(input);
    let (left, right) = made.halves(text, '\n');
    let (left, right) = (stack_of(left, made), stack_of(right.trim_end(), made));
    made.show(&(left.cmp(&right), left == right));
    drop((left, right));
}

/// `width 4`, `columns 65535`: a number of values or of columns, where there can be so many.
pub(crate) fn limit(words: Words, made: &mut Made) {
    let count = made.number(words.word(1));
    match words.word(0) {
        "width" => made.show(&Width::new(count).map(|width| width.get())),
        _ => made.show(&Columns::new(count).map(|columns| columns.get())),
    }
}

/// `weights`: the values of a row, where it can have so many.
pub(crate) fn weights(input: &[u8], made: &mut Made) {
    let values = values_of(made.text_of(input), made);
    match Weights::make(values.as_slice()) {
        Some(weights) => made.show(&(weights.values(), weights.width().get())),
        None => made.say(&"none"),
    }
    drop(values);
}
