//! What a step makes, and the first thing that went wrong with it.

use crate::scripts::script::Words;
use std::alloc::Global;
use std::fmt::{Debug, Display};
use std::io::Write;
use std::str::FromStr;

/// Why a step can't be run.
#[derive(Clone, Copy)]
pub enum Wrong {
    NoMemory,
    /// No command is written so.
    Command,
    /// No line is written so.
    Line,
    /// No `let` before has the name.
    Name,
    /// What the step needs isn't there: a session, a plan, a profile.
    Missing,
    /// A call answered otherwise than before, or a profile was not read back.
    Unequal,
}

impl Wrong {
    /// The line that is printed for it.
    pub fn text(self) -> &'static str {
        match self {
            Wrong::NoMemory => "out of memory",
            Wrong::Command => "no such command",
            Wrong::Line => "no such line",
            Wrong::Name => "no such name",
            Wrong::Missing => "what the command needs is missing",
            Wrong::Unequal => "two answers that have to be equal are not",
        }
    }
}

/// Bytes that are added one after the other. What goes wrong is kept here and not returned, so that functions which add
/// something need not end early.
#[derive(Drop)]
pub struct Made {
    bytes: Vec<u8>,
    wrong: Option<Wrong>,
}

impl Made {
    /// No bytes, and nothing wrong. Takes no memory.
    pub fn new(alloc: Global) -> Made {
        Made {
            bytes: Vec::new(alloc),
            wrong: None,
        }
    }

    /// Where its memory comes from.
    pub fn alloc(&self) -> Global {
        *self.bytes.allocator()
    }

    /// The bytes so far.
    pub fn bytes(&self) -> &[u8] {
        self.bytes.as_slice()
    }

    /// Where a writer adds bytes.
    pub fn writer(&mut self) -> &mut Vec<u8> {
        &mut self.bytes
    }

    /// What went wrong first.
    pub fn wrong(&self) -> Option<Wrong> {
        self.wrong
    }

    /// Begins again with no bytes, and with nothing wrong.
    pub fn clear(&mut self) {
        self.bytes.clear();
        self.wrong = None;
    }

    /// Keeps only the first bytes.
    pub fn truncate(&mut self, len: usize) {
        self.bytes.truncate(len);
    }

    /// Keeps only the first bytes, where those after them are the same once more.
    pub fn drop_repeated(&mut self, len: usize) {
        if self.bytes.get(..len) == self.bytes.get(len..) {
            self.bytes.truncate(len);
        }
    }

    /// Takes these bytes from the front, if it has them there.
    pub fn drop_front(&mut self, front: &[u8]) {
        if self.bytes.starts_with(front) {
            self.bytes.drain(..front.len());
        }
    }

    /// Keeps what went wrong, unless something did before.
    pub fn fail(&mut self, wrong: Wrong) {
        if self.wrong.is_none() {
            self.wrong = Some(wrong);
        }
    }

    /// Keeps what went wrong with other bytes.
    pub fn fail_as(&mut self, other: &Made) {
        if let Some(wrong) = other.wrong {
            self.fail(wrong);
        }
    }

    /// Adds a byte.
    pub fn push(&mut self, byte: u8) {
        if self.bytes.push(byte).is_err() {
            self.fail(Wrong::NoMemory);
        }
    }

    /// Adds bytes.
    pub fn add(&mut self, bytes: &[u8]) {
        if self.bytes.extend_from_slice(bytes).is_err() {
            self.fail(Wrong::NoMemory);
        }
    }

    /// Adds what a call made that fails only where it is out of memory.
    pub fn add_made<E: Drop>(&mut self, made: Result<Vec<u8>, E>) {
        match made {
            Ok(bytes) => self.add(bytes.as_slice()),
            Err(_) => self.fail(Wrong::NoMemory),
        }
    }

    /// Adds a text as a line, which a call made that fails only where it is out of memory.
    pub fn say_made<D: Display + Drop, E: Drop>(&mut self, made: Result<D, E>) {
        match made {
            Ok(text) => self.say(&text),
            Err(_) => self.fail(Wrong::NoMemory),
        }
    }

    /// Adds what a value is printed as.
    pub fn print<D: Display>(&mut self, value: &D) {
        if write!(self.bytes, "{value}").is_err() {
            self.fail(Wrong::NoMemory);
        }
    }

    /// Adds a value as a line.
    pub fn say<D: Display>(&mut self, value: &D) {
        self.print(value);
        self.push(b'\n');
    }

    /// Ends a line that is begun, by a line feed or by what parts it from more of it.
    pub fn end_line(&mut self, end: u8) {
        if self.bytes.last().is_some_and(|byte| *byte != b'\n') {
            self.push(end);
        }
    }

    /// Adds a fault as a line.
    pub fn refuse<D: Display>(&mut self, fault: &D) {
        self.add(b"! ");
        self.say(fault);
    }

    /// Adds a value as a line, as `{:?}` prints it.
    pub fn show<D: Debug>(&mut self, value: &D) {
        if write!(self.bytes, "{value:?}\n").is_err() {
            self.fail(Wrong::NoMemory);
        }
    }

    /// Tells of a way that led to something else.
    pub fn agree(&mut self, way: &str, is_same: bool) {
        if !is_same {
            self.print(&way);
            self.add(b" answers otherwise\n");
        }
    }

    /// Tells of a way that led to something else, or that failed.
    pub fn compare<T: PartialEq + Drop, E: Drop>(
        &mut self,
        way: &str,
        again: Result<T, E>,
        wanted: &T,
    ) {
        match again {
            Ok(again) => self.agree(way, again == *wanted),
            Err(_) => self.fail(Wrong::Missing),
        }
    }

    /// What a call makes, or nothing: then it is kept that the call failed.
    pub fn done<T, E: Drop>(&mut self, made: Result<T, E>) -> Option<T> {
        if made.is_err() {
            self.fail(Wrong::Missing);
        }
        made.ok()
    }

    /// Adds an item to a list.
    pub fn keep<T: Drop>(&mut self, items: &mut Vec<T>, item: T) {
        if items.push(item).is_err() {
            self.fail(Wrong::NoMemory);
        }
    }

    /// What there has to be.
    pub fn wanted<T>(&mut self, found: Option<T>, other: Wrong) -> Option<T> {
        if found.is_none() {
            self.fail(other);
        }
        found
    }

    /// The number that a word spells.
    pub fn number<T: FromStr + Default>(&mut self, word: &str) -> T
    where
        T::Err: Drop,
    {
        match word.parse() {
            Ok(number) => number,
            Err(_) => {
                self.fail(Wrong::Command);
                T::default()
            }
        }
    }

    /// The number after a word, or another where the word isn't there.
    pub fn number_after<T: FromStr + Default>(&mut self, words: Words, key: &str, other: T) -> T
    where
        T: Drop,
        T::Err: Drop,
    {
        match words.after(key) {
            Some(word) => self.number(word),
            None => other,
        }
    }

    /// The text of some bytes, or no text.
    pub fn text_of<'a>(&mut self, bytes: &'a [u8]) -> &'a str {
        match std::str::from_utf8(bytes) {
            Ok(text) => text,
            Err(_) => {
                self.fail(Wrong::Line);
                ""
            }
        }
    }

    /// The parts of a text before and after another, which it has to have.
    pub fn halves<'a>(&mut self, text: &'a str, between: char) -> (&'a str, &'a str) {
        match text.split_once(between) {
            Some(halves) => halves,
            None => {
                self.fail(Wrong::Line);
                ("", "")
            }
        }
    }
}
