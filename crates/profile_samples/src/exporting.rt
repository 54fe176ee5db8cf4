//! Rows as the profile that they are exported as.

ghost use Rattle.std.specs.Prelude.{◌≡◌, ◌<◌, ◌≤◌, ◌^◌, All, IfOk, OnOk, [], length, map, pos, reverse};
ghost use Rattle.std.specs.List.{flat_map};
ghost use Rattle.profile_rows.specs.Limits.{most_frames};
ghost use Rattle.profile_rows.specs.Names.{IsName};
ghost use Rattle.profile_samples.specs.Export.{draft_with, exported_draft, exported_function, exported_location};
ghost use Rattle.profile_samples.specs.Export.{exported_profile_of, exported_sample, exported_type, id_in, pairs_of};
ghost use Rattle.profile_samples.specs.Export.{profile_with, strings_of, unit_texts};
ghost use Rattle.profile_samples.specs.Batches.{IsBatchOf};
ghost use Rattle.name_counts.specs.Tallies.{AreSingle};
ghost use Rattle.name_counts.specs.TextTables.{with_texts};
ghost use Rattle.profile_samples.specs.declared.sampling.ValueChoice.TheVariants as choices;

use basics::NoMemory;
use name_counts::TextTable;
use pprof_profile::{
    Draft, Function, Items, Line, Location, Profile, Sample, Samples, Text, ValueType, check,
};
use profile_rows::{Batch, Hashing, Name, Row, WeightedStack, Weights};
use std::alloc::Global;

/// What a value counts, and in which unit: as `cpu` and `nanoseconds`.
#[derive(Clone, Copy, Debug)]
pub struct ValueUnit<'a> {
    pub kind: &'a str,
    pub unit: &'a str,
}

/// Adds the names of a stack.
fn add_names<'a>(table: &mut TextTable<'a>, names: &'a [Name]) -> Result<(), NoMemory>
    ensures texts { OnOk result (table.new.texts ≡ with_texts table.old.texts names.now) }
    ensures each { OnOk result (All IsName names.now) }
{
    for name in names {
        table.add(name.text())?;
    }
    Ok(())
}

/// The names of rows as they first stand.
fn names_of<'a>(
    alloc: Global,
    hashing: Hashing,
    rows: &'a [WeightedStack],
) -> Result<TextTable<'a>, NoMemory>
    ensures texts { IfOk result (λ names. names.texts ≡ with_texts [] (flat_map (λ row. row.stack) rows.now)) }
    ensures each { OnOk result (All (λ row. All IsName row.stack × (length row.stack ≤ most_frames)) rows.now) }
{
    let mut names = TextTable::new(alloc, hashing);
    for row in rows {
        add_names(&mut names, row.stack.names())?;
    }
    Ok(names)
}

/// Adds the kinds and units of values.
fn add_units<'a>(table: &mut TextTable<'a>, units: &[ValueUnit<'a>]) -> Result<(), NoMemory>
    ensures { OnOk result (table.new.texts ≡ with_texts table.old.texts (unit_texts (pairs_of units.now))) }
{
    for unit in units {
        table.add(unit.kind)?;
        table.add(unit.unit)?;
    }
    Ok(())
}

/// Adds the strings of a profile with these names where none stands.
fn add_strings<'a>(
    table: &mut TextTable<'a>,
    units: &[ValueUnit<'a>],
    names: &TextTable<'a>,
) -> Result<(), NoMemory>
    requires { table.old.texts ≡ [] }
    ensures { OnOk result (table.new.texts ≡ strings_of (pairs_of units.now) names.now.texts) }
{
    table.add("")?;
    add_units(table, units)?;
    for name in names.texts() {
        table.add(*name)?;
    }
    Ok(())
}

/// The strings of a profile with these names.
fn strings_of<'a>(
    alloc: Global,
    hashing: Hashing,
    units: &[ValueUnit<'a>],
    names: &TextTable<'a>,
) -> Result<TextTable<'a>, NoMemory>
    ensures { IfOk result (λ strings. strings.texts ≡ strings_of (pairs_of units.now) names.now.texts) }
{
    let mut strings = TextTable::new(alloc, hashing);
    match add_strings(&mut strings, units, names) {
        Ok(()) => Ok(strings),
        Err(fault) => {
            drop(strings);
            Err(fault)
        }
    }
}

/// The id of a name's function and of its location.
fn id_in(names: &TextTable, name: &str) -> u64
    ensures { result ≡ id_in names.now.texts name.now }
{
    names.number_of(name) as u64 + 1
}

/// The functions of the names.
fn functions_of(
    alloc: Global,
    names: &TextTable,
    strings: &TextTable,
) -> Result<Items<Function>, NoMemory>
    requires { AreSingle names.now.texts }
    ensures { IfOk result (λ functions. functions
        ≡ map (exported_function names.now.texts strings.now.texts) names.now.texts) }
{
    let mut functions = Vec::with_capacity(alloc, names.texts().len())?;
    for (index, name) in names.texts().iter().enumerate() {
        functions.push(Function {
            id: index as u64 + 1,
            name: strings.number_of(*name) as i64,
            system_name: 0,
            filename: 0,
            start_line: 0,
        })?;
    }
    Ok(Items::new(functions))
}

/// The locations of the names.
fn locations_of(alloc: Global, names: &TextTable) -> Result<Items<Location>, NoMemory>
    requires { AreSingle names.now.texts }
    ensures { IfOk result (λ locations. locations ≡ map (exported_location names.now.texts) names.now.texts) }
{
    let mut locations = Vec::with_capacity(alloc, names.texts().len())?;
    for index in 0..names.texts().len() {
        let id = index as u64 + 1;
        let line = Line {
            function_id: id,
            line: 0,
        };
        locations.push(Location {
            id,
            mapping_id: 0,
            address: 0,
            lines: Items::new(vec![in alloc; line]?),
            is_folded: false,
        })?;
    }
    Ok(Items::new(locations))
}

/// The ids of a stack's locations, leaf first.
fn location_ids(alloc: Global, names: &TextTable, stack: &[Name]) -> Result<Items<u64>, NoMemory>
    ensures { IfOk result (λ ids. ids ≡ reverse (map (id_in names.now.texts) stack.now)) }
{
    let ids = stack.iter().rev().map(|name| id_in(names, name.text()));
    Ok(Items::new(ids.collect(alloc)?))
}

/// The values of a row as those of a sample.
fn values_of(alloc: Global, weights: &Weights) -> Result<Items<i64>, NoMemory>
    requires { All (λ weight. weight < 2 ^ 63) weights.now }
    ensures { IfOk result (λ values. values ≡ map pos weights.now) }
{
    let mut values = Vec::with_capacity(alloc, weights.values().len())?;
    for weight in weights.values() {
        values.push(*weight as i64)?;
    }
    Ok(Items::new(values))
}

/// The sample of a row.
fn sample_of(alloc: Global, names: &TextTable, row: &Row) -> Result<Sample, NoMemory>
    requires { All (λ weight. weight < 2 ^ 63) row.now.weights }
    ensures { IfOk result (λ sample. sample
        ≡ exported_sample names.now.texts (record { stack = row.now.stack.now; weights = row.now.weights })) }
{
    Ok(Sample {
        location_ids: location_ids(alloc, names, row.stack.names())?,
        values: values_of(alloc, &row.weights)?,
        labels: Items::empty(alloc),
    })
}

/// The samples of a batch.
fn samples_of(alloc: Global, names: &TextTable, batch: &Batch) -> Result<Samples, NoMemory>
    ensures { IfOk result (λ samples. samples ≡ map (exported_sample names.now.texts) batch.now.rows) }
{
    let mut samples = Samples::empty(alloc);
    for at in 0..batch.first().rows().len() {
        let sample = sample_of(alloc, names, &batch.row(at))?;
        let pushed = samples.push(&sample);
        drop(sample);
        pushed?;
    }
    Ok(samples)
}

/// The sample types of values.
fn types_of(
    alloc: Global,
    strings: &TextTable,
    units: &[ValueUnit],
) -> Result<Items<ValueType>, NoMemory>
    ensures { IfOk result (λ types. types ≡ map (exported_type strings.now.texts) (pairs_of units.now)) }
{
    let mut types = Vec::with_capacity(alloc, units.len())?;
    for unit in units {
        types.push(ValueType {
            kind: strings.number_of(unit.kind) as i64,
            unit: strings.number_of(unit.unit) as i64,
        })?;
    }
    Ok(Items::new(types))
}

/// Copies of the texts.
fn copies_of(alloc: Global, texts: &TextTable) -> Result<Items<Text>, NoMemory>
    ensures { IfOk result (λ copies. copies ≡ texts.now.texts) }
{
    let mut copies = Vec::with_capacity(alloc, texts.texts().len())?;
    for text in texts.texts() {
        copies.push(Text::copied(alloc, *text)?)?;
    }
    Ok(Items::new(copies))
}

/// The draft of these names and strings, with no samples yet.
fn draft_with(
    alloc: Global,
    names: &TextTable,
    strings: &TextTable,
    units: &[ValueUnit],
) -> Result<Draft, NoMemory>
    requires { AreSingle names.now.texts }
    ensures { IfOk result (λ draft. draft ≡ draft_with names.now.texts strings.now.texts []
        (map (exported_type strings.now.texts) (pairs_of units.now))) }
{
    let sample_types = types_of(alloc, strings, units)?;
    let locations = locations_of(alloc, names)?;
    let functions = functions_of(alloc, names, strings)?;
    let strings = copies_of(alloc, strings)?;
    Ok(Draft {
        sample_types,
        samples: Samples::empty(alloc),
        mappings: Items::empty(alloc),
        locations,
        functions,
        strings,
        drop_frames: 0,
        keep_frames: 0,
        time_nanos: 0,
        duration_nanos: 0,
        period_type: ValueType { kind: 0, unit: 0 },
        period: 0,
        comments: Items::empty(alloc),
        default_sample_type: 0,
    })
}

/// The draft of these names for samples whose values are of these kinds and in these units, with no samples yet.
pub(crate) fn exported_draft(
    alloc: Global,
    hashing: Hashing,
    names: &TextTable,
    units: &[ValueUnit],
) -> Result<Draft, NoMemory>
    requires { AreSingle names.now.texts }
    ensures { IfOk result (λ draft. draft ≡ exported_draft names.now.texts (pairs_of units.now)) }
{
    let strings = strings_of(alloc, hashing, units, names)?;
    let draft = draft_with(alloc, names, &strings, units);
    drop(strings);
    draft
}

/// The draft with these samples in place of its own.
fn with_samples(draft: Draft, samples: Samples) -> Draft
    ensures { result ≡ record draft { samples = samples } }
{
    Draft { samples, ..draft }
}

/// The draft of a batch whose names these are.
fn draft_of(
    alloc: Global,
    hashing: Hashing,
    names: &TextTable,
    batch: &Batch,
    units: &[ValueUnit],
) -> Result<Draft, NoMemory>
    requires { AreSingle names.now.texts }
    ensures { IfOk result (λ draft. draft ≡ profile_with names.now.texts
        (strings_of (pairs_of units.now) names.now.texts) batch.now.rows (pairs_of units.now)) }
{
    let samples = samples_of(alloc, names, batch)?;
    match exported_draft(alloc, hashing, names, units) {
        Ok(draft) => Ok(with_samples(draft, samples)),
        Err(fault) => {
            drop(samples);
            Err(fault)
        }
    }
}

/// The batch as a profile of a sample type for each value, whose kinds and units these are, in order: a sample for each
/// row in order, with all its values, and a function and a location for each name, numbered from 1 as the names first
/// stand. By all its types, its samples give the batch back.
///
/// # Errors
///
/// `NoMemory`.
pub fn profile_of(alloc: Global, batch: &Batch, units: &[ValueUnit]) -> Result<Profile, NoMemory>
    requires { length units.now ≡ batch.now.width }
    ensures profile { IfOk result (λ profile. profile ≡ exported_profile_of batch.now.rows (pairs_of units.now)) }
    ensures reads_back { IfOk result (λ profile. IsBatchOf profile choices.All batch.now) }
    ensures default { IfOk result (λ profile. batch.now.width ≡ 1 → IsBatchOf profile choices.Default batch.now) }
{
    let hashing = Hashing::fixed();
    let names = names_of(alloc, hashing, batch.first().rows())?;
    let draft = draft_of(alloc, hashing, &names, batch, units);
    drop(names);
    match check(alloc, draft?) {
        Ok(profile) => Ok(profile),
        Err(refused) => {
            drop(refused);
            Err(NoMemory)
        }
    }
}
