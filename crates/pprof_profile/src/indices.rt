//! Whether each index of a draft names one of its strings.

ghost use Rattle.std.specs.Prelude.{◌≡◌};
ghost use Rattle.std.specs.List.{list_all};
ghost use Rattle.pprof_profile.specs.Valid.{is_index, value_type_indexes, label_indexes, sample_indexes};
ghost use Rattle.pprof_profile.specs.Valid.{mapping_indexes, function_indexes, items_index, profile_indexes, all_index};

use crate::messages::{Draft, Function, Label, Mapping, ValueType};
use crate::samples::Samples;

/// Each index of the draft is one of a string.
pub(crate) fn indices_hold(draft: &Draft) -> bool
    ensures { result ≡ all_index draft.now }
{
    let count = draft.strings.len();
    items_hold(count, draft) && profile_holds(count, draft)
}

/// The index is one of so many strings.
fn index_holds(count: usize, index: i64) -> bool
    ensures { result ≡ is_index count index }
{
    index >= 0 && index.cast_unsigned() < count as u64
}

fn items_hold(count: usize, draft: &Draft) -> bool
    ensures { result ≡ items_index count draft.now }
{
    value_types_hold(count, draft.sample_types.as_slice())
        && samples_hold(count, &draft.samples)
        && mappings_hold(count, draft.mappings.as_slice())
        && functions_hold(count, draft.functions.as_slice())
}

fn profile_holds(count: usize, draft: &Draft) -> bool
    ensures { result ≡ profile_indexes count draft.now }
{
    index_holds(count, draft.drop_frames)
        && index_holds(count, draft.keep_frames)
        && value_type_holds(count, &draft.period_type)
        && comments_hold(count, draft.comments.as_slice())
        && index_holds(count, draft.default_sample_type)
}

fn comments_hold(count: usize, comments: &[i64]) -> bool
    ensures { result ≡ list_all (is_index count) comments.now }
{
    comments.iter().all(|comment| index_holds(count, *comment))
}

fn value_type_holds(count: usize, item: &ValueType) -> bool
    ensures { result ≡ value_type_indexes count item.now }
{
    index_holds(count, item.kind) && index_holds(count, item.unit)
}

fn value_types_hold(count: usize, items: &[ValueType]) -> bool
    ensures { result ≡ list_all (value_type_indexes count) items.now }
{
    items.iter().all(|item| value_type_holds(count, item))
}

fn label_holds(count: usize, item: &Label) -> bool
    ensures { result ≡ label_indexes count item.now }
{
    index_holds(count, item.key)
        && index_holds(count, item.text)
        && index_holds(count, item.num_unit)
}

fn labels_hold(count: usize, items: &[Label]) -> bool
    ensures { result ≡ list_all (label_indexes count) items.now }
{
    items.iter().all(|item| label_holds(count, item))
}

fn samples_hold(count: usize, samples: &Samples) -> bool
    ensures { result ≡ list_all (sample_indexes count) samples.now }
{
    for index in 0..samples.len() {
        if !labels_hold(count, samples.at(index).labels()) {
            return false;
        }
    }
    true
}

fn mapping_holds(count: usize, item: &Mapping) -> bool
    ensures { result ≡ mapping_indexes count item.now }
{
    index_holds(count, item.filename) && index_holds(count, item.build_id)
}

fn mappings_hold(count: usize, items: &[Mapping]) -> bool
    ensures { result ≡ list_all (mapping_indexes count) items.now }
{
    items.iter().all(|item| mapping_holds(count, item))
}

fn function_holds(count: usize, item: &Function) -> bool
    ensures { result ≡ function_indexes count item.now }
{
    index_holds(count, item.name)
        && index_holds(count, item.system_name)
        && index_holds(count, item.filename)
}

fn functions_hold(count: usize, items: &[Function]) -> bool
    ensures { result ≡ list_all (function_indexes count) items.now }
{
    items.iter().all(|item| function_holds(count, item))
}
