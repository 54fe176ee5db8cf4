//! The wire format.

ghost use Rattle.std.specs.Prelude.{◌≡◌, ℕ, List, [], length, MatchOption};
ghost use Rattle.pprof_wire.specs.Fields.{PlainField, SplitsIntoFields, IsRestFault};

use crate::scripts::{Made, Words, Wrong};
use pprof_wire::{Field, Fields, Value, WireFault, packed, write_field, write_varint};

/// `varint`, `varint at 3`: the number that the bytes spell there, and where it ends.
pub(crate) fn read_varint(words: Words, input: &[u8], made: &mut Made) {
    let at = made.number_after(words, "at", 0);
    match pprof_wire::read_varint(input, at) {
        Ok((number, end)) => made.say(&format_args!("{number} to {end}")),
        Err(fault) => made.refuse(&fault),
    }
}

/// `packed`: each number of a packed field as a line, then the end or the fault, which has to come again.
pub(crate) fn read_packed(input: &[u8], made: &mut Made) {
    let mut numbers = packed(input);
    let mut last = numbers.next_value();
    for _ in 0..input.len() {
        let Some(Ok(number)) = last else { break };
        made.say(&number);
        last = numbers.next_value();
    }
    made.agree("another call", numbers.next_value() == last);
    match last {
        Some(Err(fault)) => made.refuse(&fault),
        _ => made.say(&"end"),
    }
}

/// `fields`: each field of a message as a line, then the end or the fault, which has to come again.
pub(crate) fn read_fields(input: &[u8], made: &mut Made) {
    let mut fields = Fields::new(input);
    let mut last = fields.next_field();
    for _ in 0..input.len() {
        let Some(Ok(field)) = last else { break };
        say_field(field, made);
        last = fields.next_field();
    }
    made.agree("another call", fields.next_field() == last);
    match last {
        Some(Err(fault)) => made.refuse(&fault),
        _ => made.say(&"end"),
    }
}

fn say_field(field: Field, made: &mut Made) {
    let Field { number, value } = field;
    let (kind, value) = match value {
        Value::Varint(value) => ("varint", value),
        Value::Fixed64(value) => ("fixed64", value),
        Value::Fixed32(value) => ("fixed32", u64::from(value)),
        Value::Bytes(value) => return say_bytes(number, value, made),
    };
    made.say(&format_args!("{number} {kind} {value}"));
}

fn say_bytes(number: u32, value: &[u8], made: &mut Made) {
    let text = made.text_of(value);
    made.say(&format_args!("{number} bytes {text:?}"));
}

/// How many fields the bytes have, and the fault after them. What it ensures is proved of the public clauses alone.
fn count_fields(bytes: &[u8]) -> (usize, Option<WireFault>)
    ensures { (fields : List PlainField) × (rest : List ℕ) × SplitsIntoFields bytes.now fields rest
        × (result.0 ≡ length fields) × MatchOption result.1 (rest ≡ []) (λ fault. IsRestFault fault rest) }
{
    let mut fields = Fields::new(bytes);
    let mut count = 0;
    while let Some(read) = fields.next_field() {
        match read {
            Ok(_) => count += 1,
            Err(fault) => return (count, Some(fault)),
        }
    }
    (count, None)
}

/// `count`: how many fields a message has, and the fault after them.
pub(crate) fn count(input: &[u8], made: &mut Made) {
    let (count, fault) = count_fields(input);
    made.say(&count);
    if let Some(fault) = fault {
        made.refuse(&fault);
    }
}

/// `write varint 300`, `write 9 varint 300`, `write 3 bytes hi`: a number or a field after the input.
pub(crate) fn write(words: Words, input: &[u8], made: &mut Made) {
    made.add(input);
    let is_written = match words.word(1) {
        "varint" => {
            let number = made.number(words.word(2));
            write_varint(made.writer(), number).is_ok()
        }
        number => write_value(made.number(number), words, made),
    };
    if !is_written {
        made.fail(Wrong::Command);
    }
}

fn write_value(number: u32, words: Words, made: &mut Made) -> bool {
    let value = match words.word(2) {
        "varint" => Value::Varint(made.number(words.word(3))),
        "fixed64" => Value::Fixed64(made.number(words.word(3))),
        "fixed32" => Value::Fixed32(made.number(words.word(3))),
        _ => Value::Bytes(words.word(3).as_bytes()),
    };
    match number {
        1..=536_870_911 => write_field(made.writer(), number, value).is_ok(),
        _ => false,
    }
}
