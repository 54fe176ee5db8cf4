//! The fields of a message, one after the other.

ghost use Rattle.std.specs.Prelude.{◌≡◌, ℕ, List, ◌/◌, ◌^◌, ◌≤◌, ◌⊎◌, ◌++◌, IfOk, IfErr};
ghost use Rattle.pprof_wire.specs.Fields.{PlainField, IsField, IsFieldNumber, IsFieldSpelling, IsRestFault};
ghost use Rattle.pprof_wire.specs.Fields.{IsFieldRead, IsFieldAtFront};

use crate::faults::WireFault;
use crate::parts::bytes_from;
use crate::values::{Field, first_value};
use crate::varints::first_varint;
use std::marker::Model;

const MAX_FIELD_NUMBER: u32 = 536_870_911;

/// The fields of a message, one after the other (Protocol Buffers encoding page, "Message Structure").
/// A contract sees the bytes that were not handed out yet, and where they lie.
#[derive(Debug, Drop)]
pub struct Fields<'a> {
    rest: &'a [u8],
}

impl<'a> Model for Fields<'a> {
    ghost use Rattle.pprof_wire.specs.Windows.{Window};

    ghost Value = { Window };

    ghost view = { λ fields. record { bytes = fields.rest.now; pointer = fields.rest.ref_ptr } };
}

impl<'a> Fields<'a> {
    /// The fields of these bytes.
    pub fn new(bytes: &'a [u8]) -> Fields<'a>
        ensures { result ≡ record { bytes = bytes.now; pointer = bytes.entry.ref_ptr } }
    {
        Fields { rest: bytes }
    }

    /// The next field, whose bytes are lent from the input. After the last one it is `None`. Where no
    /// whole field is left it is the fault, and each further call answers the same.
    ///
    /// The first of these that applies: `Truncated` or `LongVarint` of the tag, `FieldNumber`, `Group`,
    /// `WireType`, and `Truncated` or `LongVarint` of the value or of its length. A length past the end
    /// is `Truncated`.
    #[inline(always)]
    pub fn next_field(&mut self) -> Option<Result<Field<'a>, WireFault>>
        ensures read { IsFieldRead self.old result self.new }
        ensures every_field { (spelling rest : List ℕ) → (field : PlainField)
            → self.old.bytes ≡ spelling ++ rest → IsFieldSpelling spelling field
            → IsField result field × (self.new.bytes ≡ rest) }
        ensures every_fault { (fault : WireFault)
            → IsRestFault fault self.old.bytes → result ≡ Some (Err fault) }
    {
        if self.rest.is_empty() {
            return None;
        }
        match first_field(self.rest) {
            Ok((field, len)) => {
                self.rest = bytes_from(self.rest, len);
                Some(Ok(field))
            }
            Err(fault) => Some(Err(fault)),
        }
    }
}

/// The field's number that a tag holds.
fn field_number(tag: u64) -> Result<u32, WireFault>
    ensures number { IfOk result (λ number. IsFieldNumber number × (number ≡ tag / 8)) }
    ensures fault { IfErr result (λ fault.
        (fault ≡ WireFault.FieldNumber) × ((tag / 8 ≡ 0) ⊎ (2 ^ 29 ≤ tag / 8))) }
{
    match u32::try_from(tag >> 3) {
        Ok(number @ 1..=MAX_FIELD_NUMBER) => Ok(number),
        _ => Err(WireFault::FieldNumber),
    }
}

/// The field at the front, and how many bytes it takes.
#[inline(always)]
fn first_field(bytes: &[u8]) -> Result<(Field<'_>, usize), WireFault>
    ensures { IsFieldAtFront (record { bytes = bytes.now; pointer = bytes.entry.ref_ptr }) result }
{
    let (tag, tag_len) = first_varint(bytes)?;
    let number = field_number(tag)?;
    let (value, value_len) = first_value(tag & 7, bytes_from(bytes, tag_len))?;
    Ok((Field { number, value }, tag_len + value_len))
}
