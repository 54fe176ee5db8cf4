//! The commands by their first words.

use crate::scripts::{Made, Words, Wrong};
use crate::{batches, drafts, items, names, profiles, samples, wire};

/// Runs a command. That there is none such is kept in `made`, as all that goes wrong.
pub fn run_command(words: Words, input: &[u8], made: &mut Made) {
    match words.word(0) {
        "rows" | "aggregate" | "report" => batches::run(words, input, made),
        "profile" | "samples" => profiles::read_profile(words, input, made),
        "draft" => drafts::make_draft(input, made),
        "export" => samples::export(words, input, made),
        "exported" => samples::read_exported(words, input, made),
        _ => run_wire(words, input, made),
    }
}

/// Runs a command over the wire format, or over what messages are made of.
fn run_wire(words: Words, input: &[u8], made: &mut Made) {
    match words.word(0) {
        "varint" => wire::read_varint(words, input, made),
        "packed" => wire::read_packed(input, made),
        "fields" => wire::read_fields(input, made),
        "count" => wire::count(input, made),
        "write" => wire::write(words, input, made),
        "items" => items::make_items(words, input, made),
        "text" => items::make_text(input, made),
        _ => run_name(words, input, made),
    }
}

/// Runs a command over a name, a stack or a number with a limit.
fn run_name(words: Words, input: &[u8], made: &mut Made) {
    match words.word(0) {
        "name" => names::make_name(input, made),
        "clean" => names::clean_name(input, made),
        "stack" => names::make_stack(input, made),
        "compare" => names::compare(input, made),
        "width" | "columns" => names::limit(words, made),
        "weights" => names::weights(input, made),
        _ => made.fail(Wrong::Command),
    }
}
