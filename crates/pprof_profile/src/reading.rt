//! A message out of its bytes: what the value of a field does to the part that it belongs to.

ghost use Rattle.std.specs.Prelude.{◌≡◌, ◌≢◌, Result, Ok, Err, MatchResult};
ghost use Rattle.pprof_wire.specs.Fields.{value_of};
ghost use Rattle.pprof_profile.specs.declared.faults.ProfileFault.{ProfileFault};
ghost use Rattle.pprof_profile.specs.Forms.{Form, empty_of, table_of};
ghost use Rattle.pprof_profile.specs.Reading.{Spells, IsFirstFieldFault, SetsNumber, AddsNumbers, AddsText};
ghost use Rattle.pprof_profile.specs.Reading.{AddsMessage};
ghost use Rattle.pprof_profile.specs.Reading.{MergesMessage, IsUnpacked, IsPackedFault, KeepsRule, Reads};

use crate::faults::ProfileFault;
use crate::numbers::Number;
use crate::text::Text;
use basics::Items;
use pprof_wire::{Field, Fields, Value, WireFault, packed};
use std::alloc::Global;

/// A message of profile.proto.
pub(crate) trait Message: Drop {
    /// Its fields.
    ghost form: { Form Self };

    /// The message without fields. Takes no memory.
    fn empty(alloc: Global) -> Self
        ensures { result ≡ empty_of form };

    /// Takes one field.
    fn take(&mut self, alloc: Global, field: Field) -> Result<(), ProfileFault>
        ensures { KeepsRule (table_of form self.old field.entry.number (value_of field.entry.value)) self.new result };
}

/// Takes each field that is left, in order, and stops at the first fault.
pub(crate) fn take_fields<M: Message>(
    alloc: Global,
    message: &mut M,
    fields: &mut Fields,
) -> Result<(), ProfileFault>
    ensures { KeepsRule (Reads (table_of M.form) message.old fields.old.bytes) message.new result }
{
    while let Some(read) = fields.next_field() {
        match read {
            Ok(field) => message.take(alloc, field)?,
            Err(fault) => return Err(ProfileFault::Wire(fault)),
        }
    }
    Ok(())
}

/// The message that the bytes spell.
pub(crate) fn read_message<M: Message>(alloc: Global, bytes: &[u8]) -> Result<M, ProfileFault>
    ensures { MatchResult result (Spells (table_of M.form) (empty_of M.form) bytes.now)
        (λ fault. fault ≢ ProfileFault.NoMemory
        → IsFirstFieldFault (table_of M.form) (empty_of M.form) bytes.now fault) }
{
    let mut message = M::empty(alloc);
    take_fields(alloc, &mut message, &mut Fields::new(bytes))?;
    Ok(message)
}

/// Puts the number of a field in its place: the last one counts.
pub(crate) fn set_number<N: Number>(place: &mut N, value: Value) -> Result<(), ProfileFault>
    ensures { MatchResult result (λ _. SetsNumber N.of place.old (value_of value.entry) (Ok place.new))
        (λ fault. SetsNumber N.of place.old (value_of value.entry) (Err fault)) }
{
    match value {
        Value::Varint(number) => {
            *place = N::from_varint(number);
            Ok(())
        }
        _ => Err(ProfileFault::Wire(WireFault::WireType)),
    }
}

/// Adds the number of a field, or the numbers that it holds packed.
#[inline(always)]
pub(crate) fn push_numbers<N: Number>(
    items: &mut Items<N>,
    value: Value,
) -> Result<(), ProfileFault>
    ensures { KeepsRule (AddsNumbers N.of items.old (value_of value.entry)) items.new result }
{
    match value {
        Value::Varint(number) => Ok(items.push(N::from_varint(number))?),
        Value::Bytes(bytes) => push_packed(items, bytes),
        _ => Err(ProfileFault::Wire(WireFault::WireType)),
    }
}

/// So many bytes, most of which may be numbers, aren't counted through.
const FEW_BYTES: usize = 4096;

/// How many varints end in these bytes, or how many could where there are few bytes.
fn count_ends(bytes: &[u8]) -> usize {
    if bytes.len() < FEW_BYTES {
        return bytes.len();
    }
    bytes.iter().filter(|byte| **byte < 0x80).count()
}

/// Adds the packed numbers, with memory for all of them taken at once.
#[inline(always)]
pub(crate) fn push_packed<N: Number>(items: &mut Items<N>, bytes: &[u8]) -> Result<(), ProfileFault>
    ensures { MatchResult result (λ _. IsUnpacked N.of items.old bytes.now items.new)
        (λ fault. fault ≢ ProfileFault.NoMemory → IsPackedFault bytes.now fault) }
{
    items.reserve(count_ends(bytes))?;
    let mut numbers = packed(bytes);
    while let Some(read) = numbers.next_value() {
        match read {
            Ok(number) => items.push(N::from_varint(number))?,
            Err(fault) => return Err(ProfileFault::Wire(fault)),
        }
    }
    Ok(())
}

/// Adds the text of a field.
pub(crate) fn push_text(
    alloc: Global,
    items: &mut Items<Text>,
    value: Value,
) -> Result<(), ProfileFault>
    ensures { KeepsRule (AddsText items.old (value_of value.entry)) items.new result }
{
    let Value::Bytes(bytes) = value else {
        return Err(ProfileFault::Wire(WireFault::WireType));
    };
    match str::from_utf8(bytes) {
        Ok(text) => Ok(items.push(Text::copied(alloc, text)?)?),
        Err(_) => Err(ProfileFault::NotUtf8),
    }
}

/// Adds the message of a field.
pub(crate) fn push_message<M: Message>(
    alloc: Global,
    items: &mut Items<M>,
    value: Value,
) -> Result<(), ProfileFault>
    ensures { KeepsRule (AddsMessage (table_of M.form) (empty_of M.form) items.old (value_of value.entry))
        items.new result }
{
    let Value::Bytes(bytes) = value else {
        return Err(ProfileFault::Wire(WireFault::WireType));
    };
    Ok(items.push(read_message(alloc, bytes)?)?)
}

/// Takes the fields of a field's message together with those that came before.
pub(crate) fn merge_message<M: Message>(
    alloc: Global,
    message: &mut M,
    value: Value,
) -> Result<(), ProfileFault>
    ensures { KeepsRule (MergesMessage (table_of M.form) message.old (value_of value.entry)) message.new result }
{
    let Value::Bytes(bytes) = value else {
        return Err(ProfileFault::Wire(WireFault::WireType));
    };
    take_fields(alloc, message, &mut Fields::new(bytes))
}
