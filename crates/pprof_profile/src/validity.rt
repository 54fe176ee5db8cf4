//! The rules of a valid draft, in the order in which they are asked.

ghost use Rattle.std.specs.Prelude.{◌≡◌, ◌≢◌, Some, None, IfErr, OnOk};
ghost use Rattle.std.specs.List.{list_all};
ghost use Rattle.pprof_profile.specs.KnownIds.{knows};
ghost use Rattle.pprof_profile.specs.Valid.{KeepsFirstRules, begins_with_empty, each_has_values, is_nonempty};
ghost use Rattle.pprof_profile.specs.Valid.{names_locations, names_mappings, names_functions, line_names_function};
ghost use Rattle.pprof_profile.specs.Valid.{validity_fault};

use crate::faults::ProfileFault;
use crate::ids::{KnownIds, has_zero_id, unique_ids};
use crate::indices::indices_hold;
use crate::messages::{Draft, Line, Location};
use crate::samples::{Samples, SamplesByList};
use crate::text::Text;
use std::alloc::Global;

/// The first rule that the draft breaks, asked in the order of [`ProfileFault`]'s variants.
pub(crate) fn validate(alloc: Global, draft: &Draft) -> Result<(), ProfileFault>
    ensures valid { OnOk result (validity_fault draft.now ≡ None) }
    ensures fault { IfErr result
        (λ fault. fault ≢ ProfileFault.NoMemory → validity_fault draft.now ≡ Some fault) }
    ensures memory { IfErr result (λ fault. fault ≡ ProfileFault.NoMemory → KeepsFirstRules draft.now) }
{
    if !has_strings(draft.strings.as_slice()) {
        return Err(ProfileFault::NoStrings);
    }
    if !first_is_empty(draft.strings.as_slice()) {
        return Err(ProfileFault::FirstString);
    }
    if !indices_hold(draft) {
        return Err(ProfileFault::StringIndex);
    }
    if has_zero_id(draft) {
        return Err(ProfileFault::ZeroId);
    }
    let mappings = unique_ids(alloc, draft.mappings.as_slice())?;
    let locations = unique_ids(alloc, draft.locations.as_slice())?;
    let functions = unique_ids(alloc, draft.functions.as_slice())?;
    if !locations_are_known(&locations, &draft.samples.by_list()) {
        return Err(ProfileFault::NoLocation);
    }
    if !mappings_are_known(&mappings, draft.locations.as_slice()) {
        return Err(ProfileFault::NoMapping);
    }
    if !functions_are_known(&functions, draft.locations.as_slice()) {
        return Err(ProfileFault::NoFunction);
    }
    if !values_match(draft.sample_types.len(), &draft.samples) {
        return Err(ProfileFault::ValueCount);
    }
    Ok(())
}

/// There is a string.
fn has_strings(strings: &[Text]) -> bool
    ensures { result ≡ is_nonempty strings.now }
{
    matches!(strings, [_, ..])
}

/// The first string is there, and empty.
fn first_is_empty(strings: &[Text]) -> bool
    ensures { result ≡ begins_with_empty strings.now }
{
    match strings {
        [first, ..] => first.as_str().is_empty(),
        [] => false,
    }
}

/// Each location that a sample names is there. Most lists of locations are looked at once, since those of the first
/// numbers are known by then.
fn locations_are_known(known: &KnownIds, samples: &SamplesByList) -> bool
    ensures { result ≡ names_locations (knows known.now) samples.now.samples }
{
    let mut first = 0;
    for index in 0..samples.len() {
        let number = samples.number_at(index) as usize;
        if number >= first {
            if !each_is_known(known, samples.list(number)) {
                return false;
            }
            if number == first {
                first += 1;
            }
        }
    }
    true
}

fn each_is_known(known: &KnownIds, ids: &[u64]) -> bool
    ensures { result ≡ list_all (knows known.now) ids.now }
{
    ids.iter().all(|id| known.contains(*id))
}

/// Each mapping that a location names is there.
fn mappings_are_known(known: &KnownIds, locations: &[Location]) -> bool
    ensures { result ≡ names_mappings (knows known.now) locations.now }
{
    locations.iter().all(|location| location.mapping_id == 0 || known.contains(location.mapping_id))
}

/// Each function that a line names is there.
fn functions_are_known(known: &KnownIds, locations: &[Location]) -> bool
    ensures { result ≡ names_functions (knows known.now) locations.now }
{
    locations.iter().all(|location| each_line_is_known(known, location.lines.as_slice()))
}

fn each_line_is_known(known: &KnownIds, lines: &[Line]) -> bool
    ensures { result ≡ list_all (line_names_function (knows known.now)) lines.now }
{
    lines.iter().all(|line| line.function_id == 0 || known.contains(line.function_id))
}

/// Each sample has so many values.
fn values_match(count: usize, samples: &Samples) -> bool
    ensures { result ≡ each_has_values count samples.now }
{
    for index in 0..samples.len() {
        if samples.at(index).values().len() != count {
            return false;
        }
    }
    true
}
