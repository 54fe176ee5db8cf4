//! Samples of profiles as rows, and rows as profiles.

use crate::profiles::{read_profile, say_profile};
use crate::queries::{add_answer, query_of, top_answer};
use crate::rows::{add_values, width_of};
use crate::scripts::{Made, Words, Wrong};
use pprof_profile::Profile;
use stack_text::{
    Batch, FrameTotals, Hashing, Name, ValueChoice, ValueUnit, batch_of, batch_of_with,
    export_folded, merge_samples, profile_of, read_folded, sample_totals, unfold, write_stacks,
};

/// `samples`: a profile's samples as folded text. `samples merged` puts equal stacks together, `samples top` is the top
/// list, `samples unfold 0` the frames of one sample with the leaf first. The value is the profile's own choice, or
/// `value cpu`, or `all`. With `key 7` hashes begin elsewhere. `samples export samples/count cpu/ns`: the bytes of the
/// profile of the rows of all values.
pub(crate) fn answer(words: Words, profile: &Profile, made: &mut Made) {
    match words.word(1) {
        "merged" => say_merged(words, profile, made),
        "top" => say_top(words, profile, made),
        "unfold" => say_unfolded(words, profile, made),
        "export" => export_samples(words, profile, made),
        _ => say_rows(words, profile, made),
    }
}

fn hashing_of(words: Words, made: &mut Made) -> Hashing {
    Hashing::of_key(made.number_after(words, "key", 0))
}

fn choice_of(words: Words<'_>) -> ValueChoice<'_> {
    match words.after("value") {
        Some(name) => ValueChoice::Named(name),
        None if words.has("all") => ValueChoice::All,
        None => ValueChoice::Default,
    }
}

fn say_merged(words: Words, profile: &Profile, made: &mut Made) {
    let (alloc, hashing) = (made.alloc(), hashing_of(words, made));
    match merge_samples(alloc, hashing, profile, choice_of(words)) {
        Ok(stacks) => {
            made.add_made(write_stacks(alloc, &stacks));
            drop(stacks);
        }
        Err(fault) => made.refuse(&fault),
    }
}

fn say_top(words: Words, profile: &Profile, made: &mut Made) {
    let (alloc, hashing) = (made.alloc(), hashing_of(words, made));
    match sample_totals(alloc, hashing, profile, choice_of(words)) {
        Ok(totals) => add_top(totals, made),
        Err(fault) => made.refuse(&fault),
    }
}

fn add_top(totals: FrameTotals, made: &mut Made) {
    let words = Words { text: "" };
    let query = query_of(words, "top", made);
    if let Some(top) = made.done(top_answer(&query, totals)) {
        add_answer(words, &top, made);
        drop(top);
    }
    drop(query);
}

/// Adds rows by each value, one after the other; of several values the totals too.
fn say_rows(words: Words, profile: &Profile, made: &mut Made) {
    let (alloc, hashing) = (made.alloc(), hashing_of(words, made));
    match batch_of_with(alloc, hashing, profile, choice_of(words)) {
        Ok(rows) => {
            add_values(&rows, made);
            if rows.width().get() > 1 {
                made.show(&rows.total().values());
            }
            drop(rows);
        }
        Err(fault) => made.refuse(&fault),
    }
}

fn say_unfolded(words: Words, profile: &Profile, made: &mut Made) {
    let sample = made.number_after(words, "unfold", 0);
    if sample >= profile.draft().samples.len() {
        return made.fail(Wrong::Missing);
    }
    match unfold(made.alloc(), profile, sample) {
        Ok(names) => {
            say_names(names.as_slice(), made);
            drop(names);
        }
        Err(_) => made.fail(Wrong::NoMemory),
    }
}

fn say_names(names: &[Name], made: &mut Made) {
    for name in names {
        made.say(&name.text());
    }
}

fn export_samples(words: Words, profile: &Profile, made: &mut Made) {
    match batch_of(made.alloc(), profile, ValueChoice::All) {
        Ok(rows) => export_rows(words, rows, made),
        Err(fault) => made.refuse(&fault),
    }
}

fn export_rows(words: Words, rows: Batch, made: &mut Made) {
    let units = units_of(words, made);
    export_units(units.as_slice(), &rows, made);
    drop((units, rows));
}

fn export_units(units: &[ValueUnit], rows: &Batch, made: &mut Made) {
    if units.len() != rows.width().get() as usize {
        return made.fail(Wrong::Missing);
    }
    match profile_of(made.alloc(), rows, units) {
        Ok(profile) => {
            say_profile(&profile, made);
            drop(profile);
        }
        Err(_) => made.fail(Wrong::NoMemory),
    }
}

/// The sample types among the words: `cpu/ns`.
fn units_of<'a>(words: Words<'a>, made: &mut Made) -> Vec<ValueUnit<'a>> {
    let mut units = Vec::new(made.alloc());
    for word in words.text.split_whitespace() {
        if let Some((kind, unit)) = word.split_once('/') {
            made.keep(&mut units, ValueUnit { kind, unit });
        }
    }
    units
}

/// `export cpu/ns`: the bytes of the profile of folded text. `export rows cpu/ns` makes a batch of it first, and
/// `export rows cpu/ns samples/count width 2` one of rows with so many values.
pub(crate) fn export(words: Words, input: &[u8], made: &mut Made) {
    if words.has("width") {
        let width = width_of(words, made);
        let rows = crate::rows::batch_of(width, input, made);
        export_rows(words, rows, made);
    } else if words.has("rows") {
        export_folded_rows(words, input, made);
    } else {
        export_text(words, input, made);
    }
}

fn export_folded_rows(words: Words, input: &[u8], made: &mut Made) {
    match read_folded(made.alloc(), input) {
        Ok(rows) => export_rows(words, rows, made),
        Err(fault) => made.refuse(&fault),
    }
}

fn export_text(words: Words, input: &[u8], made: &mut Made) {
    let (kind, unit) = made.halves(words.word(1), '/');
    let hashing = hashing_of(words, made);
    match export_folded(made.alloc(), hashing, input, kind, unit) {
        Ok(bytes) => made.add(bytes.as_slice()),
        Err(fault) => made.refuse(&fault),
    }
}

/// `exported cpu/ns`, `exported top rows cpu/ns`: what `samples` answers of the bytes that `export` makes.
pub(crate) fn read_exported(words: Words, input: &[u8], made: &mut Made) {
    let mut bytes = Made::new(made.alloc());
    export(words, input, &mut bytes);
    made.fail_as(&bytes);
    read_profile(words, bytes.bytes(), made);
}
