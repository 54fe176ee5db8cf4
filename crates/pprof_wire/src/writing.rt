//! Varints and fields that are written, each as short as can be.

ghost use Rattle.std.specs.Prelude.{◌≡◌, ◌+◌, ◌^◌, ◌<◌, ◌≤◌, ◌++◌, length, vec_len, vec_capacity, OnOk, OnErr};
ghost use Rattle.pprof_wire.specs.Varints.{varint_of};
ghost use Rattle.pprof_wire.specs.Fields.{value_of, plain_field, wire_type_of, IsFieldNumber, value_bytes_of};
ghost use Rattle.pprof_wire.specs.Fields.{field_bytes_of};

use crate::values::Value;
use basics::NoMemory;

/// Appends the shortest spelling of the number as a varint. `NoMemory` only where the vector has no room
/// for it and cannot grow; then nothing is appended.
#[inline(always)]
pub fn write_varint(out: &mut Vec<u8>, number: u64) -> Result<(), NoMemory>
    ensures ok { OnOk result (out.new.items ≡ out.old.items ++ varint_of number) }
    ensures err { OnErr result ((out.new.items ≡ out.old.items)
        × (vec_capacity out.old < vec_len out.old + length (varint_of number))) }
{
    out.reserve(varint_len(number))?;
    push_varint(out, number);
    Ok(())
}

/// The length of the shortest spelling.
#[inline(always)]
fn varint_len(number: u64) -> usize
    ensures len { result ≡ length (varint_of number) }
    ensures most { result ≤ 10 }
{
    let mut rest = number;
    let mut len = 1;
    while rest >= 0x80 {
        rest >>= 7;
        len += 1;
    }
    len
}

/// Appends the shortest spelling, for which there is room.
#[inline(always)]
fn push_varint(out: &mut Vec<u8>, number: u64)
    requires { vec_len out.old + length (varint_of number) ≤ vec_capacity out.old }
    ensures written { out.new.items ≡ out.old.items ++ varint_of number }
    ensures room { vec_capacity out.old ≤ vec_capacity out.new }
{
    let mut rest = number;
    while rest >= 0x80 {
        out.push((rest % 0x80 + 0x80) as u8).unwrap();
        rest >>= 7;
    }
    out.push(rest as u8).unwrap();
}

/// Appends the field, its tag, its length and a varint as short as can be. `NoMemory` only where the
/// vector has no room for all of it and cannot grow; then nothing is appended.
#[inline(always)]
pub fn write_field(out: &mut Vec<u8>, number: u32, value: Value) -> Result<(), NoMemory>
    requires { IsFieldNumber number }
    ensures ok { OnOk result (out.new.items ≡ out.old.items ++ field_bytes_of (plain_field number value.entry)) }
    ensures err { OnErr result ((out.new.items ≡ out.old.items)
        × (vec_capacity out.old < vec_len out.old + length (field_bytes_of (plain_field number value.entry)))) }
{
    let tag = u64::from(number) << 3 | wire_type(value);
    let tag_len = varint_len(tag);
    out.reserve(tag_len + value_len(value))?;
    push_varint(out, tag);
    push_value(out, value);
    Ok(())
}

/// The wire type of the value.
#[inline(always)]
fn wire_type(value: Value) -> u64
    ensures { result ≡ wire_type_of (value_of value.entry) }
{
    match value {
        Value::Varint(_) => 0,
        Value::Fixed64(_) => 1,
        Value::Bytes(_) => 2,
        Value::Fixed32(_) => 5,
    }
}

/// The length of the value's spelling.
#[inline(always)]
fn value_len(value: Value) -> usize
    ensures len { result ≡ length (value_bytes_of (value_of value.entry)) }
    ensures fits { result < 2 ^ 63 + 10 }
{
    match value {
        Value::Varint(number) => varint_len(number),
        Value::Fixed64(_) => 8,
        Value::Fixed32(_) => 4,
        Value::Bytes(content) => delimited_len(content),
    }
}

/// The length of the bytes' length and the bytes.
#[inline(always)]
fn delimited_len(content: &[u8]) -> usize
    ensures len { result ≡ length (varint_of (length content.now) ++ content.now) }
    ensures fits { result < 2 ^ 63 + 10 }
{
    varint_len(content.len() as u64) + content.len()
}

/// Appends the value's spelling, for which there is room.
#[inline(always)]
fn push_value(out: &mut Vec<u8>, value: Value)
    requires { vec_len out.old + length (value_bytes_of (value_of value)) ≤ vec_capacity out.old }
    ensures { out.new.items ≡ out.old.items ++ value_bytes_of (value_of value.entry) }
{
    match value {
        Value::Varint(number) => push_varint(out, number),
        Value::Fixed64(number) => out.extend_from_slice(&number.to_le_bytes()).unwrap(),
        Value::Fixed32(number) => out.extend_from_slice(&number.to_le_bytes()).unwrap(),
        Value::Bytes(content) => {
            push_varint(out, content.len() as u64);
            out.extend_from_slice(content).unwrap();
        }
    }
}
