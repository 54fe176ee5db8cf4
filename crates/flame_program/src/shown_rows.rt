//! What a person at a terminal sees while `live` runs.

use live_report::Progress;
use std::io::{IsTerminal, Write};
use std::rt::Stderr;
use std::sync::{Mutex, Wait};

/// After how many rows a line is shown.
const SHOWN_EVERY: u64 = 100_000;

/// Shows on the standard error how many rows are in, where that is a terminal.
#[derive(Drop)]
pub(crate) struct ShownRows {
    errors: Stderr,
    /// Whether a person may be watching.
    is_terminal: bool,
    rows: Mutex<u64>,
}

impl ShownRows {
    /// No row is in yet.
    pub(crate) fn new(errors: Stderr) -> ShownRows {
        ShownRows {
            errors,
            is_terminal: errors.is_terminal(),
            rows: Mutex::new(0),
        }
    }
}

impl Progress for ShownRows {
    fn row_in<R: Wait>(&self, rt: &R) {
        if !self.is_terminal {
            return;
        }
        let mut rows = self.rows.lock(rt);
        *rows = rows.saturating_add(1);
        if *rows % SHOWN_EVERY == 0 {
            // A line that can't be shown is no reason to stop.
            let _ = writeln!(&self.errors, "{} rows are in", *rows);
        }
    }
}
