//! Which field of each message goes to which part of it.

ghost use Rattle.pprof_profile.specs.Messages.{value_type_form, line_form, label_form, mapping_form, function_form};
ghost use Rattle.pprof_profile.specs.Messages.{location_form, sample_form, draft_form};

use crate::faults::ProfileFault;
use crate::messages::{Draft, Function, Label, Line, Location, Mapping, Sample, ValueType};
use crate::reading::{Message, merge_message, push_message, push_numbers, push_text, set_number};
use crate::samples::{Samples, push_sample};
use basics::Items;
use pprof_wire::Field;
use std::alloc::Global;

impl Message for ValueType {
    ghost form = { value_type_form };

    fn empty(_alloc: Global) -> ValueType {
        ValueType { kind: 0, unit: 0 }
    }

    fn take(&mut self, _alloc: Global, field: Field) -> Result<(), ProfileFault> {
        match field.number {
            1 => set_number(&mut self.kind, field.value),
            2 => set_number(&mut self.unit, field.value),
            _ => Ok(()),
        }
    }
}

impl Message for Line {
    ghost form = { line_form };

    fn empty(_alloc: Global) -> Line {
        Line {
            function_id: 0,
            line: 0,
        }
    }

    fn take(&mut self, _alloc: Global, field: Field) -> Result<(), ProfileFault> {
        match field.number {
            1 => set_number(&mut self.function_id, field.value),
            2 => set_number(&mut self.line, field.value),
            _ => Ok(()),
        }
    }
}

impl Message for Label {
    ghost form = { label_form };

    fn empty(_alloc: Global) -> Label {
        Label {
            key: 0,
            text: 0,
            num: 0,
            num_unit: 0,
        }
    }

    #[inline(always)]
    fn take(&mut self, _alloc: Global, field: Field) -> Result<(), ProfileFault> {
        match field.number {
            1 => set_number(&mut self.key, field.value),
            2 => set_number(&mut self.text, field.value),
            3 => set_number(&mut self.num, field.value),
            4 => set_number(&mut self.num_unit, field.value),
            _ => Ok(()),
        }
    }
}

impl Message for Mapping {
    ghost form = { mapping_form };

    fn empty(_alloc: Global) -> Mapping {
        Mapping {
            id: 0,
            memory_start: 0,
            memory_limit: 0,
            file_offset: 0,
            filename: 0,
            build_id: 0,
            has_functions: false,
            has_filenames: false,
            has_line_numbers: false,
            has_inline_frames: false,
        }
    }

    fn take(&mut self, _alloc: Global, field: Field) -> Result<(), ProfileFault> {
        match field.number {
            1 => set_number(&mut self.id, field.value),
            2 => set_number(&mut self.memory_start, field.value),
            3 => set_number(&mut self.memory_limit, field.value),
            4 => set_number(&mut self.file_offset, field.value),
            5 => set_number(&mut self.filename, field.value),
            6 => set_number(&mut self.build_id, field.value),
            7 => set_number(&mut self.has_functions, field.value),
            8 => set_number(&mut self.has_filenames, field.value),
            9 => set_number(&mut self.has_line_numbers, field.value),
            10 => set_number(&mut self.has_inline_frames, field.value),
            _ => Ok(()),
        }
    }
}

impl Message for Function {
    ghost form = { function_form };

    fn empty(_alloc: Global) -> Function {
        Function {
            id: 0,
            name: 0,
            system_name: 0,
            filename: 0,
            start_line: 0,
        }
    }

    fn take(&mut self, _alloc: Global, field: Field) -> Result<(), ProfileFault> {
        match field.number {
            1 => set_number(&mut self.id, field.value),
            2 => set_number(&mut self.name, field.value),
            3 => set_number(&mut self.system_name, field.value),
            4 => set_number(&mut self.filename, field.value),
            5 => set_number(&mut self.start_line, field.value),
            _ => Ok(()),
        }
    }
}

impl Message for Location {
    ghost form = { location_form };

    fn empty(alloc: Global) -> Location {
        Location {
            id: 0,
            mapping_id: 0,
            address: 0,
            lines: Items::empty(alloc),
            is_folded: false,
        }
    }

    fn take(&mut self, alloc: Global, field: Field) -> Result<(), ProfileFault> {
        match field.number {
            1 => set_number(&mut self.id, field.value),
            2 => set_number(&mut self.mapping_id, field.value),
            3 => set_number(&mut self.address, field.value),
            4 => push_message(alloc, &mut self.lines, field.value),
            5 => set_number(&mut self.is_folded, field.value),
            _ => Ok(()),
        }
    }
}

impl Message for Sample {
    ghost form = { sample_form };

    fn empty(alloc: Global) -> Sample {
        Sample {
            location_ids: Items::empty(alloc),
            values: Items::empty(alloc),
            labels: Items::empty(alloc),
        }
    }

    #[inline(always)]
    fn take(&mut self, alloc: Global, field: Field) -> Result<(), ProfileFault> {
        match field.number {
            1 => push_numbers(&mut self.location_ids, field.value),
            2 => push_numbers(&mut self.values, field.value),
            3 => push_message(alloc, &mut self.labels, field.value),
            _ => Ok(()),
        }
    }
}

impl Message for Draft {
    ghost form = { draft_form };

    fn empty(alloc: Global) -> Draft {
        Draft {
            sample_types: Items::empty(alloc),
            samples: Samples::empty(alloc),
            mappings: Items::empty(alloc),
            locations: Items::empty(alloc),
            functions: Items::empty(alloc),
            strings: Items::empty(alloc),
            drop_frames: 0,
            keep_frames: 0,
            time_nanos: 0,
            duration_nanos: 0,
            period_type: ValueType::empty(alloc),
            period: 0,
            comments: Items::empty(alloc),
            default_sample_type: 0,
        }
    }

    fn take(&mut self, alloc: Global, field: Field) -> Result<(), ProfileFault> {
        match field.number {
            1 => push_message(alloc, &mut self.sample_types, field.value),
            2 => push_sample(alloc, &mut self.samples, field.value),
            3 => push_message(alloc, &mut self.mappings, field.value),
            4 => push_message(alloc, &mut self.locations, field.value),
            5 => push_message(alloc, &mut self.functions, field.value),
            6 => push_text(alloc, &mut self.strings, field.value),
            7 => set_number(&mut self.drop_frames, field.value),
            8 => set_number(&mut self.keep_frames, field.value),
            9 => set_number(&mut self.time_nanos, field.value),
            10 => set_number(&mut self.duration_nanos, field.value),
            11 => merge_message(alloc, &mut self.period_type, field.value),
            12 => set_number(&mut self.period, field.value),
            13 => push_numbers(&mut self.comments, field.value),
            14 => set_number(&mut self.default_sample_type, field.value),
            _ => Ok(()),
        }
    }
}
