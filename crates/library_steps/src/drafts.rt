//! Drafts of profiles, made by hand: each line adds a message or sets a number, with the fields' names.

use crate::profiles::say_profile;
use crate::scripts::{Made, Words, Wrong};
use flame_report::Items;
use pprof_profile::{
    Draft, Function, Label as SampleLabel, Line, Location, Mapping, Sample, Samples, Text,
    ValueType, check,
};
use std::alloc::Global;

/// `draft`: the canonical bytes of the draft that the lines describe, or the fault with which it is handed back. It is
/// checked at each line `check` and at the end.
pub(crate) fn make_draft(input: &[u8], made: &mut Made) {
    let mut drafts = Vec::new(made.alloc());
    made.keep(&mut drafts, empty_draft(made.alloc()));
    for lines in made.text_of(input).split("check\n") {
        add_lines(&mut drafts, lines, made);
        check_last(&mut drafts, made);
    }
    drop(drafts);
}

fn empty_draft(alloc: Global) -> Draft {
    Draft {
        sample_types: Items::empty(alloc),
        samples: Samples::empty(alloc),
        mappings: Items::empty(alloc),
        locations: Items::empty(alloc),
        functions: Items::empty(alloc),
        strings: Items::empty(alloc),
        drop_frames: 0,
        keep_frames: 0,
        time_nanos: 0,
        duration_nanos: 0,
        period_type: ValueType { kind: 0, unit: 0 },
        period: 0,
        comments: Items::empty(alloc),
        default_sample_type: 0,
    }
}

fn check_last(drafts: &mut Vec<Draft>, made: &mut Made) {
    if let Some(draft) = drafts.pop() {
        let draft = checked(draft, made);
        made.keep(drafts, draft);
    }
}

/// Checks a draft, which comes back.
fn checked(draft: Draft, made: &mut Made) -> Draft {
    match check(made.alloc(), draft) {
        Ok(profile) => {
            say_profile(&profile, made);
            profile.into_draft()
        }
        Err(refused) => {
            made.refuse(&refused.fault);
            refused.back
        }
    }
}

fn add_lines(drafts: &mut Vec<Draft>, lines: &str, made: &mut Made) {
    if let Some(draft) = drafts.last_mut() {
        for line in lines.lines() {
            add_line(draft, Words { text: line }, made);
        }
    }
}

fn add_line(draft: &mut Draft, words: Words, made: &mut Made) {
    let is_added = match words.word(0) {
        "sample" => add_sample(draft, words, made),
        "mapping" => add_mapping(draft, words, made),
        "location" => add_location(draft, words, made),
        "function" => add_function(draft, words, made),
        key => add_field(draft, words, key, made),
    };
    if !is_added {
        made.fail(Wrong::Line);
    }
}

fn add_field(draft: &mut Draft, words: Words, key: &str, made: &mut Made) -> bool {
    match key {
        "string" => add_string(draft, words.word(1), made),
        "comment" => draft.comments.push(number_after(words, key, made)).is_ok(),
        "sample_type" => draft.sample_types.push(value_type_of(words, made)).is_ok(),
        "period_type" => {
            draft.period_type = value_type_of(words, made);
            true
        }
        _ => set_number(draft, words, key, made),
    }
}

/// Sets the number of a field, where there is such a field.
fn set_number(draft: &mut Draft, words: Words, key: &str, made: &mut Made) -> bool {
    let number = number_after(words, key, made);
    match key {
        "drop_frames" => draft.drop_frames = number,
        "keep_frames" => draft.keep_frames = number,
        "time_nanos" => draft.time_nanos = number,
        "duration_nanos" => draft.duration_nanos = number,
        "period" => draft.period = number,
        "default_sample_type" => draft.default_sample_type = number,
        _ => return false,
    }
    true
}

/// The number after a word: 0 where the word isn't there.
fn number_after(words: Words, key: &str, made: &mut Made) -> i64 {
    made.number_after(words, key, 0)
}

/// The id or the address after a word: 0 where the word isn't there.
fn id_after(words: Words, key: &str, made: &mut Made) -> u64 {
    made.number_after(words, key, 0)
}

fn value_type_of(words: Words, made: &mut Made) -> ValueType {
    ValueType {
        kind: number_after(words, "kind", made),
        unit: number_after(words, "unit", made),
    }
}

fn add_string(draft: &mut Draft, text: &str, made: &mut Made) -> bool {
    match Text::copied(made.alloc(), text) {
        Ok(text) => draft.strings.push(text).is_ok(),
        Err(_) => false,
    }
}

/// A sample at one location, with values as `values 7,8`, and with a label where it has a `key`.
fn add_sample(draft: &mut Draft, words: Words, made: &mut Made) -> bool {
    let alloc = made.alloc();
    let mut sample = Sample {
        location_ids: Items::empty(alloc),
        values: Items::empty(alloc),
        labels: Items::empty(alloc),
    };
    let is_filled = fill_sample(&mut sample, words, made);
    let is_added = is_filled && draft.samples.push(&sample).is_ok();
    drop(sample);
    is_added
}

fn fill_sample(sample: &mut Sample, words: Words, made: &mut Made) -> bool {
    let location_id = id_after(words, "location_id", made);
    let has_location = sample.location_ids.push(location_id).is_ok();
    let has_label = !words.has("key") || sample.labels.push(label_of(words, made)).is_ok();
    has_location && has_label && add_values(sample, words.after("values").unwrap_or(""), made)
}

fn add_values(sample: &mut Sample, values: &str, made: &mut Made) -> bool {
    let mut has_all = true;
    for value in values.split_terminator(',') {
        has_all &= sample.values.push(made.number(value)).is_ok();
    }
    has_all
}

fn label_of(words: Words, made: &mut Made) -> SampleLabel {
    SampleLabel {
        key: number_after(words, "key", made),
        text: number_after(words, "text", made),
        num: number_after(words, "num", made),
        num_unit: number_after(words, "num_unit", made),
    }
}

fn add_mapping(draft: &mut Draft, words: Words, made: &mut Made) -> bool {
    let mapping = Mapping {
        id: id_after(words, "id", made),
        memory_start: id_after(words, "memory_start", made),
        memory_limit: id_after(words, "memory_limit", made),
        file_offset: id_after(words, "file_offset", made),
        filename: number_after(words, "filename", made),
        build_id: number_after(words, "build_id", made),
        has_functions: words.has("has_functions"),
        has_filenames: words.has("has_filenames"),
        has_line_numbers: words.has("has_line_numbers"),
        has_inline_frames: words.has("has_inline_frames"),
    };
    draft.mappings.push(mapping).is_ok()
}

/// A location with one line.
fn add_location(draft: &mut Draft, words: Words, made: &mut Made) -> bool {
    let line = Line {
        function_id: id_after(words, "function_id", made),
        line: number_after(words, "line", made),
    };
    let mut location = Location {
        id: id_after(words, "id", made),
        mapping_id: id_after(words, "mapping_id", made),
        address: id_after(words, "address", made),
        lines: Items::empty(made.alloc()),
        is_folded: words.has("is_folded"),
    };
    let has_line = location.lines.push(line).is_ok();
    draft.locations.push(location).is_ok() && has_line
}

fn add_function(draft: &mut Draft, words: Words, made: &mut Made) -> bool {
    let function = Function {
        id: id_after(words, "id", made),
        name: number_after(words, "name", made),
        system_name: number_after(words, "system_name", made),
        filename: number_after(words, "filename", made),
        start_line: number_after(words, "start_line", made),
    };
    draft.functions.push(function).is_ok()
}
