//! What the lines of a step spell: `> text`, `>hex 0aff`, `>of NAME cut 3`, `>times 1000 a;`, `>numbered 10 f# 1`.

use crate::scripts::made::{Made, Wrong};
use crate::scripts::script::Words;
use bstr::ByteSlice;
use std::alloc::Global;

/// Bytes with a name.
#[derive(Drop)]
struct Named {
    name: Made,
    bytes: Made,
}

/// The bytes that `let` gave a name.
#[derive(Drop)]
pub struct Names {
    all: Vec<Named>,
}

impl Names {
    /// No names yet. Takes no memory.
    pub fn new(alloc: Global) -> Names {
        Names {
            all: Vec::new(alloc),
        }
    }

    /// Gives bytes a name. A later name counts before an earlier one. That there is no memory for it is kept in `made`.
    pub fn add(&mut self, name: &str, bytes: &[u8], made: &mut Made) {
        let mut named = Named {
            name: Made::new(made.alloc()),
            bytes: Made::new(made.alloc()),
        };
        named.name.add(name.as_bytes());
        named.bytes.add(bytes);
        made.fail_as(&named.name);
        made.fail_as(&named.bytes);
        made.keep(&mut self.all, named);
    }

    /// The bytes of a name.
    pub fn find(&self, name: &str) -> Option<&[u8]> {
        let mut found = None;
        for named in self.all.as_slice() {
            if named.name.bytes() == name.as_bytes() {
                found = Some(named.bytes.bytes());
            }
        }
        found
    }

    /// Adds the bytes that lines with this mark spell: with `>` the input of a step, and with `=` what it has to give.
    /// To that belong lines with `!`, each a fault, which stands there as it is.
    pub fn spell(&self, lines: &str, mark: char, bytes: &mut Made) {
        for line in lines.lines() {
            if let Some(text) = line.strip_prefix(mark) {
                self.spell_line(text, bytes);
            } else if mark == '=' && line.starts_with('!') {
                bytes.say(&line);
            }
        }
    }

    /// Whether what a step made has each part that a line with `~` wants. The last one that was looked for is left.
    pub fn has_parts(&self, lines: &str, made: &[u8], part: &mut Made) -> bool {
        for line in lines.lines() {
            if let Some(text) = line.strip_prefix('~') {
                part.clear();
                self.spell_line(text, part);
                let bytes = part.bytes();
                let is_there = made.contains_str(bytes.strip_suffix(b"\n").unwrap_or(bytes));
                if part.wrong().is_some() || !is_there {
                    return false;
                }
            }
        }
        true
    }

    /// Adds what a line spells after its mark.
    fn spell_line(&self, line: &str, bytes: &mut Made) {
        if line.is_empty() {
            return bytes.push(b'\n');
        }
        let (form, text) = bytes.halves(line, ' ');
        match form {
            "" => add_text(text, bytes),
            "hex" => add_hex(text, bytes),
            "of" => self.add_named(text, bytes),
            "times" => add_times(text, bytes),
            "numbered" => add_numbered(text, bytes),
            "varints" => add_varints(text, bytes),
            _ => bytes.fail(Wrong::Line),
        }
    }

    /// Adds the bytes of a name: `NAME`, `NAME cut 3`, `NAME from 3`, `NAME times 3`.
    fn add_named(&self, text: &str, bytes: &mut Made) {
        let words = Words { text };
        match self.find(words.word(0)) {
            Some(named) => add_part(named, words, bytes),
            None => bytes.fail(Wrong::Name),
        }
    }
}

fn add_part(named: &[u8], words: Words, bytes: &mut Made) {
    let start = bytes.number_after(words, "from", 0);
    let end = bytes.number_after(words, "cut", named.len());
    let Some(part) = named.get(start..end) else {
        return bytes.fail(Wrong::Line);
    };
    for _ in 0..bytes.number_after(words, "times", 1u64) {
        bytes.add(part);
    }
}

/// What comes next in a text with escapes.
#[derive(Clone, Copy)]
enum Next {
    Plain,
    Escape,
    High,
    Low(u8),
}

/// Adds a text and the end of its line. `\r`, `\t`, `\\` and `\xff` are a byte each, and after a `\` at the end the
/// line doesn't end.
fn add_text(text: &str, bytes: &mut Made) {
    match add_escaped(text, bytes) {
        Next::Plain => bytes.push(b'\n'),
        Next::Escape => {}
        Next::High | Next::Low(_) => bytes.fail(Wrong::Line),
    }
}

fn add_escaped(text: &str, bytes: &mut Made) -> Next {
    let mut next = Next::Plain;
    for byte in text.bytes() {
        next = add_byte(next, byte, bytes);
    }
    next
}

fn add_byte(next: Next, byte: u8, bytes: &mut Made) -> Next {
    match (next, byte) {
        (Next::Plain, b'\\') => return Next::Escape,
        (Next::Escape, b'x') => return Next::High,
        (Next::High, _) => return Next::Low(digit_of(byte, bytes)),
        (Next::Plain, _) => bytes.push(byte),
        (Next::Escape, _) => add_escape(byte, bytes),
        (Next::Low(high), _) => {
            let low = digit_of(byte, bytes);
            bytes.push((high << 4) | low);
        }
    }
    Next::Plain
}

fn add_escape(byte: u8, bytes: &mut Made) {
    match byte {
        b'r' => bytes.push(b'\r'),
        b'n' => bytes.push(b'\n'),
        b't' => bytes.push(b'\t'),
        b'\\' => bytes.push(b'\\'),
        _ => bytes.fail(Wrong::Line),
    }
}

/// The number of a hexadecimal digit.
fn digit_of(byte: u8, bytes: &mut Made) -> u8 {
    match byte {
        b'0'..=b'9' => byte - b'0',
        b'a'..=b'f' => byte - b'a' + 10,
        _ => {
            bytes.fail(Wrong::Line);
            0
        }
    }
}

/// Adds the bytes of hexadecimal digits. Spaces count nothing.
fn add_hex(text: &str, bytes: &mut Made) {
    let mut high = None;
    for byte in text.bytes() {
        if byte != b' ' {
            high = add_digit(high, digit_of(byte, bytes), bytes);
        }
    }
    if high.is_some() {
        bytes.fail(Wrong::Line);
    }
}

/// Adds the byte of two digits, of which the first may have come before.
fn add_digit(high: Option<u8>, digit: u8, bytes: &mut Made) -> Option<u8> {
    let Some(high) = high else {
        return Some(digit);
    };
    bytes.push((high << 4) | digit);
    None
}

/// Adds a text with escapes so often: `1000 a;`. No line ends there.
fn add_times(text: &str, bytes: &mut Made) {
    let (count, text) = bytes.halves(text, ' ');
    let mut once = Made::new(bytes.alloc());
    let _next = add_escaped(text, &mut once);
    bytes.fail_as(&once);
    for _ in 0..bytes.number::<u64>(count) {
        bytes.add(once.bytes());
    }
}

/// Which numbers a form goes through, one after the other: `10` for those below it, `5..10`, and `10..5` downwards.
#[derive(Clone, Copy)]
struct Numbers {
    first: u64,
    end: u64,
}

impl Numbers {
    fn read(text: &str, bytes: &mut Made) -> Numbers {
        let (first, end) = text.split_once("..").unwrap_or(("0", text));
        Numbers {
            first: bytes.number(first),
            end: bytes.number(end),
        }
    }

    fn count(self) -> u64 {
        self.first.abs_diff(self.end)
    }

    /// The number that comes after so many. Downwards the end counts and the first doesn't.
    fn get(self, index: u64) -> u64 {
        if self.first <= self.end {
            self.first.saturating_add(index)
        } else {
            self.first.saturating_sub(index).saturating_sub(1)
        }
    }
}

/// Adds a line for each number, with it in the place of each `#`, and with its four hexadecimal digits in the place of
/// each `%`: `1000 f# 1`, `128..200 0x7f% #`. Where there are several `#`, as in `f###`, zeros make it as long.
fn add_numbered(text: &str, bytes: &mut Made) {
    let (numbers, text) = bytes.halves(text, ' ');
    let numbers = Numbers::read(numbers, bytes);
    for index in 0..numbers.count() {
        add_with_number(text, numbers.get(index), bytes);
        bytes.push(b'\n');
    }
}

fn add_with_number(text: &str, number: u64, bytes: &mut Made) {
    let mut digits = 0usize;
    for byte in text.bytes() {
        if byte == b'#' {
            digits = digits.saturating_add(1);
            continue;
        }
        add_number(number, digits, bytes);
        digits = 0;
        match byte {
            b'%' => bytes.print(&format_args!("{number:04x}")),
            _ => bytes.push(byte),
        }
    }
    add_number(number, digits, bytes);
}

/// Adds a number of at least so many digits, or nothing where none are wanted.
fn add_number(number: u64, digits: usize, bytes: &mut Made) {
    match digits {
        0 => {}
        1 => bytes.print(&number),
        _ => bytes.print(&format_args!("{number:0digits$}")),
    }
}

/// Adds hexadecimal digits for each number, with the two bytes of its varint in the place of `#`, and with the same as
/// the first two of a longer varint in the place of `+`: `128..200 1202 #`.
fn add_varints(text: &str, bytes: &mut Made) {
    let (numbers, text) = bytes.halves(text, ' ');
    let numbers = Numbers::read(numbers, bytes);
    for index in 0..numbers.count() {
        add_with_varint(text, numbers.get(index), bytes);
    }
}

fn add_with_varint(text: &str, number: u64, bytes: &mut Made) {
    let low = (number % 128) as u8 | 0x80;
    let high = (number / 128 % 128) as u8;
    for word in text.split_whitespace() {
        match word {
            "#" => bytes.add(&[low, high]),
            "+" => bytes.add(&[low, high | 0x80]),
            _ => add_hex(word, bytes),
        }
    }
}
