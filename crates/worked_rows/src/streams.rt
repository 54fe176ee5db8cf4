//! Readers and writers that move few bytes at a time and fail, and a runtime without random bytes.

use flame_program::MAX_INPUT;
use library_steps::{Made, Words, Wrong};
use std::alloc::Global;
use std::io;
use std::io::{ErrorKind, Read, Write};
use std::random::RandomSource;
use std::sync::Wait;
use std::thread::Threads;

/// When a stream fails.
#[derive(Clone, Copy)]
pub(crate) struct Fault {
    /// After so many reads, or so many bytes written.
    pub(crate) place: usize,
    /// From then on, or once.
    pub(crate) is_lasting: bool,
}

impl Fault {
    /// `fails at 3`, `fails from 3`.
    fn read(words: Words, made: &mut Made) -> Option<Fault> {
        Some(Fault {
            place: made.number(words.word(3)),
            is_lasting: words.word(2) == "from",
        })
    }

    /// One of two kinds, by the place.
    fn kind(self) -> ErrorKind {
        if self.place % 2 == 0 {
            ErrorKind::WouldBlock
        } else {
            ErrorKind::Interrupted
        }
    }
}

/// Fails at the place of a fault, and after it. One that isn't lasting is gone then.
fn strike(fault: &mut Option<Fault>, place: usize) -> io::Result<()> {
    match *fault {
        Some(struck) if struck.place <= place => {
            if !struck.is_lasting {
                *fault = None;
            }
            Err(io::Error::from(struck.kind()))
        }
        _ => Ok(()),
    }
}

/// How the streams of a run behave.
#[derive(Clone, Copy)]
pub(crate) struct Streams {
    /// How many bytes a read gives at most.
    by: usize,
    read_fault: Option<Fault>,
    /// How many bytes a write takes at most.
    takes: usize,
    write_fault: Option<Fault>,
    flush_fails: bool,
    /// How many bytes of input there may be.
    pub(crate) limit: usize,
    pub(crate) has_random_bytes: bool,
}

impl Streams {
    /// Streams that never fail.
    pub(crate) fn new() -> Streams {
        Streams {
            by: usize::MAX,
            read_fault: None,
            takes: usize::MAX,
            write_fault: None,
            flush_fails: false,
            limit: MAX_INPUT,
            has_random_bytes: true,
        }
    }

    /// Changes what the words name: `reader by 1`, `reader fails at 3`, `writer takes 5`, `writer fails from 2`,
    /// `flush fails`, `limit 10`, `random fails`.
    pub(crate) fn set(&mut self, words: Words, made: &mut Made) {
        match (words.word(0), words.word(1)) {
            ("reader", "by") => self.by = made.number(words.word(2)),
            ("reader", "fails") => self.read_fault = Fault::read(words, made),
            ("writer", "takes") => self.takes = made.number(words.word(2)),
            ("writer", "fails") => self.write_fault = Fault::read(words, made),
            ("flush", "fails") => self.flush_fails = true,
            ("limit", limit) => self.limit = made.number::<usize>(limit).min(MAX_INPUT),
            ("random", "fails") => self.has_random_bytes = false,
            _ => made.fail(Wrong::Command),
        }
    }

    /// The same streams, of which writes fail so, or else reads.
    pub(crate) fn failing(self, fault: Fault, is_write: bool) -> Streams {
        let mut streams = self;
        if is_write {
            streams.write_fault = Some(fault);
        } else {
            streams.read_fault = Some(fault);
        }
        streams
    }

    pub(crate) fn reader(self, rest: &[u8]) -> FakeReader<'_> {
        FakeReader {
            rest,
            by: self.by,
            reads: 0,
            fault: self.read_fault,
        }
    }

    pub(crate) fn writer(self, alloc: Global) -> FakeWriter {
        FakeWriter {
            taken: Vec::new(alloc),
            takes: self.takes,
            fault: self.write_fault,
            flush_fails: self.flush_fails,
            is_flushed: false,
        }
    }
}

/// Gives a few bytes at a read, and may fail.
#[derive(Drop)]
pub(crate) struct FakeReader<'a> {
    pub(crate) rest: &'a [u8],
    by: usize,
    reads: usize,
    fault: Option<Fault>,
}

impl Read for FakeReader<'_> {
    fn read(&mut self, buf: &mut [u8]) -> io::Result<usize> {
        strike(&mut self.fault, self.reads)?;
        self.reads = self.reads.saturating_add(1);
        let count = self.rest.len().min(buf.len()).min(self.by);
        let (given, rest) = self.rest.split_at(count);
        buf[..count].copy_from_slice(given);
        self.rest = rest;
        Ok(count)
    }
}

/// Takes a few bytes at a write, and may fail.
#[derive(Drop)]
pub(crate) struct FakeWriter {
    pub(crate) taken: Vec<u8>,
    takes: usize,
    fault: Option<Fault>,
    flush_fails: bool,
    pub(crate) is_flushed: bool,
}

impl Write for FakeWriter {
    fn write(&mut self, buf: &[u8]) -> io::Result<usize> {
        strike(&mut self.fault, self.taken.len())?;
        let mut count = buf.len().min(self.takes);
        if let Some(fault) = self.fault {
            count = count.min(fault.place.saturating_sub(self.taken.len()));
        }
        self.taken.extend_from_slice(&buf[..count])?;
        Ok(count)
    }

    fn flush(&mut self) -> io::Result<()> {
        if self.flush_fails {
            self.flush_fails = false;
            return Err(io::Error::from(ErrorKind::Interrupted));
        }
        self.is_flushed = true;
        Ok(())
    }
}

/// The threads and the waiting of a runtime, without random bytes.
#[derive(Clone, Copy)]
pub(crate) struct Unrandom<'a, T> {
    pub(crate) rt: &'a T,
}

impl<T: Threads> Threads for Unrandom<'_, T> {}

impl<T: Wait> Wait for Unrandom<'_, T> {}

impl<T> RandomSource for Unrandom<'_, T> {
    fn fill_bytes(&self, _buf: &mut [u8]) -> io::Result<()> {
        Err(io::Error::from(ErrorKind::Unsupported))
    }
}
