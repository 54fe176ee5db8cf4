//! The messages of profile.proto, with its fields' names but for these: `kind` is its `type`, `text` its `str`, and
//! fields that hold several items have names in the plural.

ghost use Rattle.std.specs.Prelude.{◌≡◌};
ghost use Rattle.pprof_profile.specs.Messages.{no_sample};

use crate::samples::Samples;
use crate::text::Text;
use basics::Items;

/// `message Profile`, with nothing said of whether it is valid. Each index is one into `strings`.
#[derive(Debug, Drop)]
pub struct Draft {
    /// Field 1: what the values of each sample are, in their order.
    pub sample_types: Items<ValueType>,
    /// Field 2: the samples.
    pub samples: Samples,
    /// Field 3: the parts of the address space.
    pub mappings: Items<Mapping>,
    /// Field 4: the locations that samples name.
    pub locations: Items<Location>,
    /// Field 5: the functions that lines name.
    pub functions: Items<Function>,
    /// Field 6: the strings that indices name; the first is empty.
    pub strings: Items<Text>,
    /// Field 7: a regular expression of the frames to drop, as an index.
    pub drop_frames: i64,
    /// Field 8: a regular expression of the frames to keep, as an index.
    pub keep_frames: i64,
    /// Field 9: when the profile was taken, in nanoseconds since 1970.
    pub time_nanos: i64,
    /// Field 10: how long it was taken, in nanoseconds.
    pub duration_nanos: i64,
    /// Field 11: the kind of event between two samples.
    pub period_type: ValueType,
    /// Field 12: the number of events between two samples.
    pub period: i64,
    /// Field 13: comments, as indices.
    pub comments: Items<i64>,
    /// Field 14: the kind of the value that is shown first, as an index.
    pub default_sample_type: i64,
}

/// `message ValueType`: what a number means.
#[derive(Debug, Drop)]
pub struct ValueType {
    /// Field 1, `type`: an index.
    pub kind: i64,
    /// Field 2: an index.
    pub unit: i64,
}

/// `message Sample`: a stack with its values.
#[derive(Debug, Drop)]
pub struct Sample {
    /// Field 1: the locations' ids, the leaf first.
    pub location_ids: Items<u64>,
    /// Field 2: a value for each of the profile's sample types.
    pub values: Items<i64>,
    /// Field 3: further context.
    pub labels: Items<Label>,
}

impl Sample {
    /// Takes everything out of the sample. The memory stays for another.
    pub(crate) fn clear(&mut self)
        ensures { self.new ≡ no_sample }
    {
        self.location_ids.clear();
        self.values.clear();
        self.labels.clear();
    }
}

/// `message Label`: context of a sample, a text or a number.
#[derive(Clone, Copy, Debug)]
pub struct Label {
    /// Field 1: an index.
    pub key: i64,
    /// Field 2, `str`: an index.
    pub text: i64,
    /// Field 3.
    pub num: i64,
    /// Field 4: an index.
    pub num_unit: i64,
}

/// `message Mapping`: a part of the address space.
#[derive(Debug, Drop)]
pub struct Mapping {
    /// Field 1: not 0, and no other mapping's.
    pub id: u64,
    /// Field 2: where it begins in memory.
    pub memory_start: u64,
    /// Field 3: where it ends in memory.
    pub memory_limit: u64,
    /// Field 4: the place in the file of its beginning.
    pub file_offset: u64,
    /// Field 5: an index.
    pub filename: i64,
    /// Field 6: an index.
    pub build_id: i64,
    /// Field 7.
    pub has_functions: bool,
    /// Field 8.
    pub has_filenames: bool,
    /// Field 9.
    pub has_line_numbers: bool,
    /// Field 10.
    pub has_inline_frames: bool,
}

/// `message Location`: an address, and the lines of the program that stand there.
#[derive(Debug, Drop)]
pub struct Location {
    /// Field 1: not 0, and no other location's.
    pub id: u64,
    /// Field 2: the id of the mapping, or 0.
    pub mapping_id: u64,
    /// Field 3.
    pub address: u64,
    /// Field 4: several where calls are inlined; the last is the caller of those before it.
    pub lines: Items<Line>,
    /// Field 5.
    pub is_folded: bool,
}

/// `message Line`: a line of a function.
#[derive(Debug, Drop)]
pub struct Line {
    /// Field 1: the id of the function, or 0.
    pub function_id: u64,
    /// Field 2.
    pub line: i64,
}

/// `message Function`.
#[derive(Debug, Drop)]
pub struct Function {
    /// Field 1: not 0, and no other function's.
    pub id: u64,
    /// Field 2: an index.
    pub name: i64,
    /// Field 3: an index.
    pub system_name: i64,
    /// Field 4: an index.
    pub filename: i64,
    /// Field 5.
    pub start_line: i64,
}
