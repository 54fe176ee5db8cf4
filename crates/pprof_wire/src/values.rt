//! A field and its value, by the wire type.

ghost use Rattle.std.specs.Prelude.{◌≡◌, ◌<◌, ◌≤◌, take, length, IfOk, IfErr};
ghost use Rattle.std.specs.Int.{w32, w64, from_le_bytes};
ghost use Rattle.pprof_wire.specs.Fields.{IsValueRead};

use crate::faults::WireFault;
use crate::parts::{bytes_from, first_bytes};
use crate::varints::first_varint;

/// A field's value, by its wire type (Protocol Buffers encoding page, "Message Structure"). Bytes are
/// lent from the input.
#[derive(Clone, Copy, Debug, PartialEq, Eq)]
pub enum Value<'a> {
    /// Wire type 0, VARINT.
    Varint(u64),
    /// Wire type 1, I64.
    Fixed64(u64),
    /// Wire type 5, I32.
    Fixed32(u32),
    /// Wire type 2, LEN.
    Bytes(&'a [u8]),
}

/// A field, read whole. A field that was read has a number from 1 to 2^29 - 1.
#[derive(Clone, Copy, Debug, PartialEq, Eq)]
pub struct Field<'a> {
    pub number: u32,
    pub value: Value<'a>,
}

/// The bytes at the front, after their length, and how many bytes both take.
fn first_delimited(bytes: &[u8]) -> Result<(Value<'_>, usize), WireFault>
    ensures { IsValueRead (record { bytes = bytes.now; pointer = bytes.entry.ref_ptr }) 2 result }
{
    let (count, prefix) = first_varint(bytes)?;
    let rest = bytes_from(bytes, prefix);
    if count > rest.len() as u64 {
        return Err(WireFault::Truncated);
    }
    let content = first_bytes(rest, count as usize);
    Ok((Value::Bytes(content), prefix + content.len()))
}

/// The eight bytes at the front, the least significant first.
fn first_fixed64(bytes: &[u8]) -> Result<u64, WireFault>
    ensures number { IfOk result (λ number.
        (8 ≤ length bytes.now) × (number ≡ from_le_bytes w64 (take 8 bytes.now))) }
    ensures cut { IfErr result (λ fault. (fault ≡ WireFault.Truncated) × (length bytes.now < 8)) }
{
    match bytes.first_chunk::<8>() {
        Some(chunk) => Ok(u64::from_le_bytes(*chunk)),
        None => Err(WireFault::Truncated),
    }
}

/// The four bytes at the front, the least significant first.
fn first_fixed32(bytes: &[u8]) -> Result<u32, WireFault>
    ensures number { IfOk result (λ number.
        (4 ≤ length bytes.now) × (number ≡ from_le_bytes w32 (take 4 bytes.now))) }
    ensures cut { IfErr result (λ fault. (fault ≡ WireFault.Truncated) × (length bytes.now < 4)) }
{
    match bytes.first_chunk::<4>() {
        Some(chunk) => Ok(u32::from_le_bytes(*chunk)),
        None => Err(WireFault::Truncated),
    }
}

/// The value of the wire type at the front, and how many bytes it takes.
#[inline(always)]
pub(crate) fn first_value(wire_type: u64, bytes: &[u8]) -> Result<(Value<'_>, usize), WireFault>
    ensures { IsValueRead (record { bytes = bytes.now; pointer = bytes.entry.ref_ptr }) wire_type result }
{
    match wire_type {
        0 => {
            let (number, len) = first_varint(bytes)?;
            Ok((Value::Varint(number), len))
        }
        1 => Ok((Value::Fixed64(first_fixed64(bytes)?), 8)),
        2 => first_delimited(bytes),
        3 | 4 => Err(WireFault::Group),
        5 => Ok((Value::Fixed32(first_fixed32(bytes)?), 4)),
        _ => Err(WireFault::WireType),
    }
}
