//! The names of a profile's functions by numbers.

ghost use Rattle.std.specs.Prelude.{◌≡◌, IfOk, true};
ghost use Rattle.std.specs.Option.{option_map};
ghost use Rattle.pprof_profile.specs.Valid.{IsValidDraft};
ghost use Rattle.profile_samples.specs.Samples.{address_name, item_with, named_by};
ghost use Rattle.profile_samples.specs.NameNumbers.{address_of, needs_address, name_number, number_at, number_by};
ghost use Rattle.profile_samples.specs.NameNumbers.{numbers_of, string_numbers};

use crate::id_index::IdIndex;
use basics::NoMemory;
use pprof_profile::{Draft, Function, Line, Location};
use profile_rows::{Hashing, Name};
use std::alloc::{AllocError, Global};
use std::marker::Model;

/// The number at an index of strings.
fn number_at(numbers: &[Option<usize>], index: i64) -> Option<usize>
    ensures { result ≡ number_at numbers.now index }
{
    *numbers.get(usize::try_from(index).ok()?)?
}

/// The number of the name of a function: of its `name`, or else of its `system_name`.
fn number_by(numbers: &[Option<usize>], function: &Function) -> Option<usize>
    ensures { result ≡ number_by numbers.now function.now }
{
    number_at(numbers, function.name).or_else(|| number_at(numbers, function.system_name))
}

/// The numbers of the names of a profile's functions. A contract sees the profile.
#[derive(Drop)]
pub(crate) struct FunctionNumbers<'a> {
    draft: &'a Draft,
    indices: IdIndex,
    numbers: Vec<Option<usize>>,
}

impl<'a> Model for FunctionNumbers<'a> {
    ghost use Rattle.pprof_profile.specs.declared.messages.Draft.{Draft};
    ghost use Rattle.profile_samples.specs.NameNumbers.{AreFunctionNumbers};

    ghost Value = { Draft };

    ghost view = { λ functions. functions.draft.now };

    ghost invariant = { λ functions.
        AreFunctionNumbers functions.draft.now functions.indices functions.numbers.items };
}

impl<'a> FunctionNumbers<'a> {
    /// The numbers of the names of a valid profile's functions, by those of its strings.
    pub fn new(
        alloc: Global,
        hashing: Hashing,
        draft: &'a Draft,
        strings: &[Option<usize>],
    ) -> Result<FunctionNumbers<'a>, NoMemory>
        requires valid { IsValidDraft draft.now }
        requires strings { strings.now ≡ string_numbers draft.now }
        ensures { IfOk result (λ functions. functions ≡ draft.now) }
    {
        let functions = draft.functions.as_slice();
        let ids = functions.iter().map(|function| function.id).collect(alloc)?;
        let indices = IdIndex::new(alloc, hashing, ids)?;
        let numbers = functions
            .iter()
            .map(|function| number_by(strings, function))
            .collect(alloc)?;
        Ok(FunctionNumbers {
            draft,
            indices,
            numbers,
        })
    }

    /// The number of the name of the function that an id names, where it has one.
    fn number_of(&self, id: u64) -> Option<usize>
        ensures { result ≡ option_map (name_number self.now)
            (named_by self.now.strings (item_with (λ function. function.id) id self.now.functions)) }
    {
        *self.numbers.get(self.indices.find(id)?)?
    }

    /// Whether a frame of a location of these lines is called as its address: there is no line, or one whose function
    /// has no name.
    fn needs_address(&self, lines: &[Line]) -> bool
        ensures { result ≡ needs_address self.now lines.now }
    {
        for line in lines {
            if self.number_of(line.function_id).is_none() {
                return true;
            }
        }
        lines.is_empty()
    }

    /// The name of a location's address, where a frame needs it: `0x` and hexadecimal digits.
    pub fn address_of(&self, alloc: Global, location: &Location) -> Result<Option<Name>, NoMemory>
        ensures { IfOk result (λ name. name ≡ address_of self.now location.now) }
    {
        if !self.needs_address(location.lines.as_slice()) {
            return Ok(None);
        }
        let text = format!(in alloc; "0x{:x}", location.address)?;
        Ok(Some(Name::keep(alloc, text.as_str())?))
    }

    /// The numbers of the names of a location's frames, leaf first, by that of its address, where a frame needs it.
    pub fn numbers_of(
        &self,
        alloc: Global,
        location: &Location,
        address: usize,
    ) -> Result<Vec<usize>, AllocError>
        requires { needs_address self.now location.now.lines ≡ true
            → address ≡ name_number self.now (address_name location.now.address) }
        ensures { IfOk result (λ numbers. numbers.items ≡ numbers_of self.now location.now) }
    {
        let lines = location.lines.as_slice();
        if lines.is_empty() {
            return Ok(vec![in alloc; address]?);
        }
        let mut numbers = Vec::with_capacity(alloc, lines.len())?;
        for line in lines {
            numbers.push(self.number_of(line.function_id).unwrap_or(address))?;
        }
        Ok(numbers)
    }
}
