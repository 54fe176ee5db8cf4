//! What a script's steps made, compared with what they have to make.

use crate::scripts::bytes::Names;
use crate::scripts::made::{Made, Wrong};
use crate::scripts::script::Step;
use std::alloc::Global;
use std::process::ExitCode;

/// The bytes that have names, the step under way, and what went wrong so far.
#[derive(Drop)]
pub struct Checker {
    /// Where what is kept between steps takes its memory.
    pub alloc: Global,
    /// The bytes that have names.
    pub names: Names,
    /// The input of the step.
    pub input: Made,
    /// What the step made.
    pub made: Made,
    /// What it had to make.
    wanted: Made,
    report: Made,
    passed: u64,
    failed: u64,
    has_failed: bool,
}

impl Checker {
    /// No step yet. Takes no memory.
    pub fn new(alloc: Global) -> Checker {
        Checker {
            alloc,
            names: Names::new(alloc),
            input: Made::new(alloc),
            made: Made::new(alloc),
            wanted: Made::new(alloc),
            report: Made::new(alloc),
            passed: 0,
            failed: 0,
            has_failed: false,
        }
    }

    /// Spells the input of a step, which has made nothing yet.
    pub fn begin(&mut self, step: &Step) {
        self.input.clear();
        self.made.clear();
        self.names.spell(step.lines, '>', &mut self.input);
    }

    /// Gives the input of the step a name.
    pub fn name_input(&mut self, name: &str) {
        if name.is_empty() {
            self.made.fail(Wrong::Command);
        } else {
            self.names.add(name, self.input.bytes(), &mut self.made);
        }
    }

    /// Gives what the step made a name. Nothing of it is left.
    pub fn name_made(&mut self, name: &str) {
        self.names.add(name, self.made.bytes(), &mut self.input);
        self.made.truncate(0);
    }

    /// Counts a step that ran to its end, or that couldn't be run.
    pub fn settle(&mut self, step: &Step) {
        self.wanted.clear();
        let has_made = self.has_made(step);
        let wrong = self
            .input
            .wrong()
            .or(self.made.wrong())
            .or(self.wanted.wrong());
        if has_made && wrong.is_none() {
            self.passed = self.passed.saturating_add(1);
        } else {
            self.failed = self.failed.saturating_add(1);
            self.has_failed = true;
            self.tell(step, wrong);
        }
    }

    /// Whether a step made what was wanted: all of it, or the parts that lines with `~` want.
    fn has_made(&mut self, step: &Step) -> bool {
        let made = self.made.bytes();
        if step.lines.starts_with('~') || step.lines.contains("\n~") {
            self.names.has_parts(step.lines, made, &mut self.wanted)
        } else {
            self.names.spell(step.lines, '=', &mut self.wanted);
            self.wanted.bytes() == made
        }
    }

    /// Reports a step that failed.
    fn tell(&mut self, step: &Step, wrong: Option<Wrong>) {
        let report = &mut self.report;
        report.say(&format_args!("{}:{}: {}", step.file, step.line, step.words.text));
        if let Some(wrong) = wrong {
            report.say(&format_args!("  {}", wrong.text()));
        }
        add_shown(report, "wanted", self.wanted.bytes());
        add_shown(report, "made", self.made.bytes());
    }

    /// A script whose bytes are no text can't be run.
    pub fn refuse_script(&mut self, file: &str) {
        self.has_failed = true;
        self.report.say(&format_args!("{file}: no text"));
    }

    /// Ends a script: its counts are reported, and begin again.
    pub fn end(&mut self, file: &str) {
        let (passed, failed) = (self.passed, self.failed);
        let counts = format_args!("{file}: {passed} passed, {failed} failed");
        self.report.say(&counts);
        self.passed = 0;
        self.failed = 0;
    }

    /// What there is to print.
    pub fn report(&self) -> &[u8] {
        self.report.bytes()
    }

    /// The report begins again, once it was printed. A report that isn't whole counts as a failure.
    pub fn clear_report(&mut self) {
        self.has_failed |= self.report.wrong().is_some();
        self.report.clear();
    }

    /// 1 where a step failed.
    pub fn exit_code(&self) -> ExitCode {
        if self.has_failed {
            ExitCode::FAILURE
        } else {
            ExitCode::SUCCESS
        }
    }
}

/// How many bytes of what was wanted or made are shown.
const SHOWN: usize = 2_000;

/// Adds the first of some bytes as they are, under a title. Bytes that are no text are shown as a list of numbers.
fn add_shown(report: &mut Made, title: &str, bytes: &[u8]) {
    let bytes = bytes.get(..SHOWN).unwrap_or(bytes);
    match std::str::from_utf8(bytes) {
        Ok(text) => report.print(&format_args!("  {title}:\n{text}")),
        Err(_) => report.say(&format_args!("  {title}: {bytes:?}")),
    }
}
