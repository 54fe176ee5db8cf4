//! The messages as the fields that are written of them.

ghost use Rattle.std.specs.Prelude.{◌≡◌, ◌++◌, ℕ, List, map, OnOk};
ghost use Rattle.pprof_wire.specs.Fields.{PlainField};
ghost use Rattle.pprof_profile.specs.declared.messages.Sample.{Sample};
ghost use Rattle.pprof_profile.specs.Canonical.{sample_bytes, samples_bytes, canonical_bytes_of, FitsSample, FitsDraft};
ghost use Rattle.pprof_profile.specs.Forms.{PartsFit, parts_of, written_after};
ghost use Rattle.pprof_profile.specs.Messages.{value_type_form, line_form, label_form, mapping_form, function_form};
ghost use Rattle.pprof_profile.specs.Messages.{location_form, sample_form, draft_form, rows_after_samples};
ghost use Rattle.pprof_profile.specs.Writing.{FitsEach, bytes_of_fields, each_field};

use crate::messages::{Draft, Function, Label, Line, Location, Mapping, ValueType};
use crate::samples::{SampleRef, Samples};
use crate::writing::{
    Written, replace_content, write_each, write_message, write_messages, write_number,
    write_numbers, write_packed, write_texts,
};
use pprof_wire::{NoMemory, Value, write_field};
use std::alloc::Global;

impl Written for ValueType {
    ghost form = { value_type_form };

    fn write(
        &self,
        _alloc: Global,
        out: &mut Vec<u8>,
        _spare: &mut Vec<u8>,
    ) -> Result<(), NoMemory> {
        write_number(out, 1, &self.kind)?;
        write_number(out, 2, &self.unit)
    }
}

impl Written for Line {
    ghost form = { line_form };

    fn write(
        &self,
        _alloc: Global,
        out: &mut Vec<u8>,
        _spare: &mut Vec<u8>,
    ) -> Result<(), NoMemory> {
        write_number(out, 1, &self.function_id)?;
        write_number(out, 2, &self.line)
    }
}

impl Written for Label {
    ghost form = { label_form };

    fn write(
        &self,
        _alloc: Global,
        out: &mut Vec<u8>,
        _spare: &mut Vec<u8>,
    ) -> Result<(), NoMemory> {
        write_number(out, 1, &self.key)?;
        write_number(out, 2, &self.text)?;
        write_number(out, 3, &self.num)?;
        write_number(out, 4, &self.num_unit)
    }
}

impl Written for Mapping {
    ghost form = { mapping_form };

    fn write(
        &self,
        _alloc: Global,
        out: &mut Vec<u8>,
        _spare: &mut Vec<u8>,
    ) -> Result<(), NoMemory> {
        write_number(out, 1, &self.id)?;
        write_number(out, 2, &self.memory_start)?;
        write_number(out, 3, &self.memory_limit)?;
        write_number(out, 4, &self.file_offset)?;
        write_number(out, 5, &self.filename)?;
        write_number(out, 6, &self.build_id)?;
        write_number(out, 7, &self.has_functions)?;
        write_number(out, 8, &self.has_filenames)?;
        write_number(out, 9, &self.has_line_numbers)?;
        write_number(out, 10, &self.has_inline_frames)
    }
}

impl Written for Function {
    ghost form = { function_form };

    fn write(
        &self,
        _alloc: Global,
        out: &mut Vec<u8>,
        _spare: &mut Vec<u8>,
    ) -> Result<(), NoMemory> {
        write_number(out, 1, &self.id)?;
        write_number(out, 2, &self.name)?;
        write_number(out, 3, &self.system_name)?;
        write_number(out, 4, &self.filename)?;
        write_number(out, 5, &self.start_line)
    }
}

impl Written for Location {
    ghost form = { location_form };

    fn write(&self, alloc: Global, out: &mut Vec<u8>, spare: &mut Vec<u8>) -> Result<(), NoMemory> {
        write_number(out, 1, &self.id)?;
        write_number(out, 2, &self.mapping_id)?;
        write_number(out, 3, &self.address)?;
        write_messages(alloc, out, 4, &self.lines, spare)?;
        write_number(out, 5, &self.is_folded)
    }
}

impl<'a> Written for SampleRef<'a> {
    ghost form = { sample_form };

    fn write(&self, alloc: Global, out: &mut Vec<u8>, spare: &mut Vec<u8>) -> Result<(), NoMemory> {
        write_packed(out, 1, self.location_ids(), spare)?;
        write_packed(out, 2, self.values(), spare)?;
        write_each(alloc, out, 3, self.labels(), spare)
    }
}

/// Appends a field for each sample. One buffer serves for all of them, and one for what is nested in each.
fn write_samples(
    alloc: Global,
    out: &mut Vec<u8>,
    samples: &Samples,
    spare: &mut Vec<u8>,
) -> Result<(), NoMemory>
    ensures written { OnOk result
        (out.new.items ≡ out.old.items ++ bytes_of_fields (each_field 2 (map sample_bytes samples.now))) }
    ensures fits { OnOk result (FitsEach FitsSample sample_bytes samples.now) }
{
    let mut nested = Vec::new(alloc);
    for index in 0..samples.len() {
        replace_content(alloc, spare, &samples.at(index), &mut nested)?;
        write_field(out, 2, Value::Bytes(spare.as_slice()))?;
    }
    Ok(())
}

impl Written for Draft {
    ghost form = { draft_form };

    fn write(&self, alloc: Global, out: &mut Vec<u8>, spare: &mut Vec<u8>) -> Result<(), NoMemory> {
        write_messages(alloc, out, 1, &self.sample_types, spare)?;
        write_samples(alloc, out, &self.samples, spare)?;
        write_after_samples(alloc, self, out, spare)
    }
}

/// Appends the fields of a draft that stand after its samples.
fn write_after_samples(
    alloc: Global,
    item: &Draft,
    out: &mut Vec<u8>,
    spare: &mut Vec<u8>,
) -> Result<(), NoMemory>
    ensures written { (start : List ℕ) → (before : List PlainField)
        → out.old.items ≡ start ++ bytes_of_fields before
        → OnOk result (out.new.items ≡ start
        ++ bytes_of_fields (written_after rows_after_samples before (parts_of rows_after_samples item.now))) }
    ensures fits { OnOk result (PartsFit rows_after_samples (parts_of rows_after_samples item.now)) }
{
    write_messages(alloc, out, 3, &item.mappings, spare)?;
    write_messages(alloc, out, 4, &item.locations, spare)?;
    write_messages(alloc, out, 5, &item.functions, spare)?;
    write_texts(out, 6, &item.strings)?;
    write_number(out, 7, &item.drop_frames)?;
    write_number(out, 8, &item.keep_frames)?;
    write_number(out, 9, &item.time_nanos)?;
    write_number(out, 10, &item.duration_nanos)?;
    write_message(alloc, out, 11, &item.period_type, spare)?;
    write_number(out, 12, &item.period)?;
    write_numbers(out, 13, &item.comments, spare)?;
    write_number(out, 14, &item.default_sample_type)
}

/// Appends the fields of a draft whose samples stand as bytes.
pub(crate) fn write_around_samples(
    alloc: Global,
    item: &Draft,
    samples: &[u8],
    out: &mut Vec<u8>,
) -> Result<(), NoMemory>
    ensures written { (items : List Sample) → samples.now ≡ samples_bytes items
        → OnOk result (out.new.items ≡ out.old.items ++ canonical_bytes_of (record item.now { samples = items })) }
    ensures fits { (items : List Sample) → FitsEach FitsSample sample_bytes items
        → OnOk result (FitsDraft (record item.now { samples = items })) }
{
    let mut spare = Vec::new(alloc);
    write_messages(alloc, out, 1, &item.sample_types, &mut spare)?;
    out.extend_from_slice(samples)?;
    write_after_samples(alloc, item, out, &mut spare)
}
