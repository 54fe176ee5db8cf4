//! What is said on the standard error.

use std::alloc::Global;
use std::fmt::Display;
use std::io::Write;
use std::rt::Stderr;
use std::sync::atomic::{AtomicBool, Ordering};

/// The standard error, and whether something went wrong so far.
#[derive(Drop)]
pub struct Messages {
    alloc: Global,
    errors: Stderr,
    is_source_faulty: AtomicBool,
    is_window_lost: AtomicBool,
}

impl Messages {
    /// Nothing went wrong so far. Takes no memory.
    pub fn new(alloc: Global, errors: Stderr) -> Messages {
        Messages {
            alloc,
            errors,
            is_source_faulty: AtomicBool::new(false),
            is_window_lost: AtomicBool::new(false),
        }
    }

    /// Says one line, all of it at once.
    pub fn say(&self, told: &impl Display) {
        if let Ok(line) = format!(in self.alloc; "collect: {told}\n") {
            self.show(line.as_bytes());
        }
    }

    /// Shows a text as it is.
    pub fn show(&self, text: &[u8]) {
        let mut errors = self.errors;
        // Nothing is left to do where the standard error can't be written.
        let _ = errors.write_all(text);
    }

    /// Says what is wrong with a source.
    pub fn blame(&self, source: &str, fault: &impl Display) {
        self.is_source_faulty.store(true, Ordering::SeqCst);
        self.say(&format_args!("{source}: {fault}"));
    }

    /// Says why a window isn't written.
    pub fn lose_window(&self, cause: &impl Display) {
        self.is_window_lost.store(true, Ordering::SeqCst);
        self.say(&format_args!("a window is lost: {cause}"));
    }

    /// The exit status, by what was said: 0, 1 where a source was at fault, 3 where a window is lost.
    pub fn status(&self) -> u8 {
        if self.is_window_lost.load(Ordering::SeqCst) {
            return 3;
        }
        u8::from(self.is_source_faulty.load(Ordering::SeqCst))
    }
}
