//! The program `flame`: its words, its input, and how it ends.

use crate::streams::{FakeWriter, Fault, Streams, Unrandom};
use flame_program::{End, MAX_INPUT, NoProgress, Status, read_input, run, run_process};
use library_steps::{Made, Names, Words, Wrong};
use std::alloc::{AllocError, Global};
use std::env::Args;
use std::io::ErrorKind;
use std::process::ExitCode;
use std::random::RandomSource;
use std::sync::Wait;
use std::thread::Threads;
use std::{io, mem};

/// A word of a command. `""` is the empty word, and `\n` a line feed.
fn plain(word: &str) -> &str {
    match word {
        "\"\"" => "",
        "\\n" => "\n",
        _ => word,
    }
}

/// Adds a command's words, of which the first is the program's name. It gives false where there is no memory for them.
fn add_words<'a>(command: &'a str, words: &mut Vec<&'a str>) -> bool {
    for word in command.split_whitespace() {
        if words.push(plain(word)).is_err() {
            return false;
        }
    }
    true
}

/// How the program is run: its threads, memory, streams and input.
pub(crate) struct Run<'a, T> {
    pub(crate) rt: &'a T,
    pub(crate) alloc: Global,
    pub(crate) streams: Streams,
    pub(crate) input: &'a [u8],
}

impl<T> Clone for Run<'_, T> {
    fn clone(&self) -> Result<Self, AllocError> {
        Ok(*self)
    }
}

impl<T> Copy for Run<'_, T> {}

impl<'a, T: Threads + Wait + RandomSource + Sync> Run<'a, T> {
    /// `flame top --by cum`: one run. It adds what the program wrote, and how it ended where it failed:
    /// `! 1 flame: F2 NoCount line 1`.
    pub(crate) fn once(self, command: &str, made: &mut Made) {
        self.in_format(command, "", made);
    }

    /// The same of an input in this format.
    fn in_format(self, command: &str, format: &str, made: &mut Made) {
        let mut words = Vec::new(self.alloc);
        if !add_words(command, &mut words) || !add_words(format, &mut words) {
            made.fail(Wrong::NoMemory);
        } else if self.streams.has_random_bytes {
            self.run_on(self.rt, words.as_slice(), made);
        } else {
            self.run_on(&Unrandom { rt: self.rt }, words.as_slice(), made);
        }
        drop(words);
    }

    fn run_on<H: Threads + Wait + RandomSource + Sync>(
        self,
        host: &H,
        words: &[&str],
        made: &mut Made,
    ) {
        let mut reader = self.streams.reader(self.input);
        let mut writer = self.streams.writer(self.alloc);
        let status = run(
            host,
            self.alloc,
            &NoProgress,
            words,
            &mut reader,
            &mut writer,
            self.streams.limit.min(MAX_INPUT),
        );
        add_end(&status, &writer, made);
        drop((reader, writer, status));
    }

    /// Runs the program more than once: `both NAME flame top`, `each of NAME`, `each read fails flame top`,
    /// `each write fails flame top`.
    pub(crate) fn often(self, words: Words, names: &Names, made: &mut Made) {
        let mut ends = Ends::new(self.alloc);
        let command = words.rest(3).text;
        match (words.word(0), words.word(1)) {
            ("both", name) => self.both(names.find(name), words.rest(2).text, &mut ends, made),
            ("each", "of") => self.each(names.find(words.word(2)), &mut ends, made),
            ("each", "read") => self.each_read(command, &mut ends, made),
            ("each", "write") => self.each_write(command, &mut ends, made),
            _ => made.fail(Wrong::Command),
        }
        ends.tell(made);
        drop(ends);
    }

    /// On the input, which is folded text, and on a profile.
    fn both(self, profile: Option<&[u8]>, command: &str, ends: &mut Ends, made: &mut Made) {
        let Some(profile) = profile else {
            return made.fail(Wrong::Name);
        };
        self.in_format(command, "--format folded", &mut ends.next);
        ends.add(made);
        self.on(profile)
            .in_format(command, "--format pprof", &mut ends.next);
        ends.add(made);
    }

    fn on<'b>(self, input: &'b [u8]) -> Run<'b, T>
    where
        'a: 'b,
    {
        Run {
            rt: self.rt,
            alloc: self.alloc,
            streams: self.streams,
            input,
        }
    }

    /// A run for each line of a text, with its words.
    fn each(self, commands: Option<&[u8]>, ends: &mut Ends, made: &mut Made) {
        let Some(commands) = commands else {
            return made.fail(Wrong::Name);
        };
        for command in made.text_of(commands).lines() {
            self.once(command, &mut ends.next);
            ends.add(made);
        }
    }

    /// Runs in which each read fails in turn, once and from then on. The last of them is that which would find the end
    /// of the input.
    fn each_read(self, command: &str, ends: &mut Ends, made: &mut Made) {
        let places = self.input.len().saturating_add(1);
        for is_lasting in [false, true] {
            self.fail_each(command, places, is_lasting, b"", ends, made);
        }
    }

    /// Runs in which each byte of the report in turn isn't taken any more. Exactly the bytes before it are.
    fn each_write(self, command: &str, ends: &mut Ends, made: &mut Made) {
        let mut report = Made::new(self.alloc);
        self.once(command, &mut report);
        made.fail_as(&report);
        let places = report.bytes().len();
        for is_lasting in [false, true] {
            self.fail_each(command, places, is_lasting, report.bytes(), ends, made);
        }
        drop(report);
    }

    /// Runs with a fault at each of so many places: of writes where there is a report, and else of reads.
    fn fail_each(
        self,
        command: &str,
        places: usize,
        is_lasting: bool,
        report: &[u8],
        ends: &mut Ends,
        made: &mut Made,
    ) {
        for place in 0..places {
            let fault = Fault { place, is_lasting };
            let streams = self.streams.failing(fault, !report.is_empty());
            Run { streams, ..self }.once(command, &mut ends.next);
            ends.next.drop_front(report.get(..place).unwrap_or(report));
            ends.add(made);
        }
    }

    /// `process flame top`: a whole process. What it writes, its exit status, and what it says on the standard error.
    /// `process without text`, `process without memory`: a process whose words can't be had.
    pub(crate) fn process(self, words: Words, made: &mut Made) {
        match (words.word(1), words.word(2)) {
            ("without", "text") => self.end_process(lack(ErrorKind::InvalidData), made),
            ("without", "memory") => self.end_process(lack(ErrorKind::OutOfMemory), made),
            ("without", _) => made.fail(Wrong::Command),
            _ => self.end_process(Ok(args_of(words.rest(1).text, made)), made),
        }
    }

    fn end_process(self, words: io::Result<Args>, made: &mut Made) {
        let mut reader = self.input;
        let mut said = self.streams.writer(self.alloc);
        let end = run_process(
            self.rt,
            self.alloc,
            &NoProgress,
            words,
            &mut reader,
            made.writer(),
            &mut said,
        );
        add_process(&end, said.taken.as_slice(), made);
        drop((said, end));
    }

    /// `read`: what the input has up to the limit, and how much is left unread.
    pub(crate) fn read(self, made: &mut Made) {
        let mut reader = self.streams.reader(self.input);
        match read_input(self.alloc, &mut reader, self.streams.limit.min(MAX_INPUT)) {
            Ok(input) => {
                made.say(&format_args!("{} bytes", input.len()));
                drop(input);
            }
            Err(fault) => made.refuse(&fault),
        }
        made.say(&format_args!("{} left", reader.rest.len()));
    }
}

/// Adds what a run wrote, how it ended, and whether it was flushed where that isn't as it should be.
fn add_end(status: &Status, writer: &FakeWriter, made: &mut Made) {
    made.add(writer.taken.as_slice());
    if writer.is_flushed != (status.code == 0) {
        made.say(&format_args!("flushed: {}", writer.is_flushed));
    }
    if status.code != 0 {
        made.print(&format_args!("! {} {}", status.code, status.cause));
    }
}

/// Why words can't be had.
fn lack(kind: ErrorKind) -> io::Result<Args> {
    Err(io::Error::from(kind))
}

/// Words as a process has them.
fn args_of(command: &str, made: &mut Made) -> Args {
    let mut words = Vec::new(made.alloc());
    for word in command.split_whitespace() {
        if let Some(word) = made.done(String::from_str(made.alloc(), plain(word))) {
            made.keep(&mut words, word);
        }
    }
    words.into_iter()
}

/// Adds a process's exit status, what it said, and whether that was said whole.
fn add_process(end: &End, said: &[u8], made: &mut Made) {
    made.say(&format_args!("status {}", status_of(&end.code)));
    made.add(said);
    if end.said.is_err() {
        made.say(&"\nnot said");
    }
}

/// An exit status, of those that the program has.
fn status_of(code: &ExitCode) -> u8 {
    let mut found = u8::MAX;
    for status in 0..6 {
        if *code == ExitCode::from(status) {
            found = status;
        }
    }
    found
}

/// How some runs ended. Ends that are the same and come one after the other are told once.
#[derive(Drop)]
struct Ends {
    /// What the run under way made.
    next: Made,
    last: Made,
    times: u64,
}

impl Ends {
    fn new(alloc: Global) -> Ends {
        Ends {
            next: Made::new(alloc),
            last: Made::new(alloc),
            times: 0,
        }
    }

    /// Counts the end of a run, which another can follow.
    fn add(&mut self, made: &mut Made) {
        made.fail_as(&self.next);
        if self.next.bytes() != self.last.bytes() {
            self.tell(made);
            mem::swap(&mut self.next, &mut self.last);
        }
        self.next.clear();
        self.times = self.times.saturating_add(1);
    }

    /// Tells the last end, and how often it came.
    fn tell(&mut self, made: &mut Made) {
        if self.times > 0 {
            made.say(&format_args!("{} times", self.times));
        }
        self.times = 0;
        made.add(self.last.bytes());
    }
}
