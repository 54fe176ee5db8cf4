//! The names that a profile's strings give.

ghost use Rattle.std.specs.Prelude.{ℕ, ◌≡◌, ◌<◌, ◌||◌, IfOk, [], false, length, slice_index_or};
ghost use Rattle.profile_samples.specs.Samples.{string_at};
ghost use Rattle.profile_samples.specs.NameNumbers.{AreMarks, AreStringNumbers, IsNumbered, index_in, is_at};
ghost use Rattle.profile_samples.specs.NameNumbers.{string_numbers};

use basics::NoMemory;
use indexmap::IndexSet;
use pprof_profile::{Draft, Function, Text};
use profile_rows::{Hashing, Name};
use std::alloc::{AllocError, Global};

/// The string at an index; empty where there is none.
pub(crate) fn string_at(strings: &[Text], index: i64) -> &str
    ensures { result.now ≡ string_at strings.now index }
{
    match usize::try_from(index) {
        Ok(at) => strings.get(at).map_or("", |text| text.as_str()),
        Err(_) => "",
    }
}

/// Marks an index, where it is one of the list.
fn mark(marks: &mut Vec<bool>, index: i64)
    ensures count { length marks.new.items ≡ length marks.old.items }
    ensures marked { (at : ℕ) → at < length marks.old.items
        → slice_index_or marks.new.items at false
        ≡ (slice_index_or marks.old.items at false || is_at (index_in index) at) }
{
    if let Ok(at) = usize::try_from(index) {
        if at < marks.len() {
            marks[at] = true;
        }
    }
}

/// For each of so many strings whether it names a function.
fn name_marks(alloc: Global, functions: &[Function], count: usize) -> Result<Vec<bool>, AllocError>
    ensures { IfOk result (λ marks. AreMarks functions.now count marks.items) }
{
    let mut marks = vec![in alloc; false; count]?;
    for function in functions {
        mark(&mut marks, function.name);
        mark(&mut marks, function.system_name);
    }
    Ok(marks)
}

/// The number of a name, where there is one: it is added to the names where it is missing. More names leave it.
pub(crate) fn number_with(
    names: &mut IndexSet<Name, Hashing>,
    name: Option<Name>,
) -> Result<Option<usize>, NoMemory>
    ensures { IfOk result (IsNumbered name names.old.keys names.new.keys) }
{
    match name {
        Some(name) => Ok(Some(names.insert_full(name)?.0)),
        None => Ok(None),
    }
}

/// The numbers of the names of a profile's strings, where they name functions. There are no names yet.
pub(crate) fn string_numbers(
    alloc: Global,
    draft: &Draft,
    names: &mut IndexSet<Name, Hashing>,
) -> Result<Vec<Option<usize>>, NoMemory>
    requires { names.old.keys ≡ [] }
    ensures { IfOk result (λ numbers. AreStringNumbers draft.now names.new.keys numbers.items) }
{
    let strings = draft.strings.as_slice();
    let marks = name_marks(alloc, draft.functions.as_slice(), strings.len())?;
    let mut numbers = Vec::with_capacity(alloc, strings.len())?;
    for (at, text) in strings.iter().enumerate() {
        let name = if marks[at] {
            Name::clean(alloc, text.as_str())?
        } else {
            None
        };
        numbers.push(number_with(names, name)?)?;
    }
    Ok(numbers)
}
