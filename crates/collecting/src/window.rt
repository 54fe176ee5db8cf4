//! One window of time, as those who fill it share it.

ghost use Rattle.collect_sources.specs.Lines.{AreFirstLines};

use collect_sources::{count_lines, first_lines};
use profile_store::BookFault;
use std::sync::atomic::{AtomicBool, AtomicU64, Ordering};
use std::sync::{Mutex, MutexGuard, Wait};
use std::time::{Clock, Duration, Instant};
use thiserror::Error;

/// For how many rows a window has to have room, so that an adder waits for more lines before it adds some.
const MANY_ROWS: u64 = 100_000;

/// Why a window ended before its time and its rows.
#[derive(Clone, Copy, PartialEq, Eq, Debug, Error)]
pub(crate) enum EarlyEnd {
    #[error("memory ran out")]
    NoMemory,
    #[error("its store takes no more changes")]
    Full,
    #[error("its weights are above 2^63 - 1 together")]
    Heavy,
}

impl EarlyEnd {
    /// Why a store takes no more of a window.
    pub(crate) fn of(fault: BookFault) -> EarlyEnd {
        match fault {
            BookFault::Full { .. } => EarlyEnd::Full,
            BookFault::Heavy { .. } => EarlyEnd::Heavy,
            _ => EarlyEnd::NoMemory,
        }
    }
}

/// When a window ends.
#[derive(Drop)]
pub(crate) struct Window {
    until: Option<Instant>,
    has_limit: bool,
    rows_left: Mutex<u64>,
    is_over: AtomicBool,
    ended_early: Mutex<Option<EarlyEnd>>,
    /// How many adders are at work.
    working: AtomicU64,
}

impl Window {
    /// A window until this time and of at most so many rows, where there is one, that so many adders fill.
    pub(crate) fn new(until: Option<Instant>, rows: Option<u64>, adders: u64) -> Window {
        Window {
            until,
            has_limit: rows.is_some(),
            rows_left: Mutex::new(rows.unwrap_or(u64::MAX)),
            is_over: AtomicBool::new(false),
            ended_early: Mutex::new(None),
            working: AtomicU64::new(adders),
        }
    }

    /// Whether nothing more is added.
    pub(crate) fn is_over<R: Clock>(&self, rt: &R) -> bool {
        self.is_over.load(Ordering::SeqCst) || self.is_late(rt)
    }

    fn is_late<R: Clock>(&self, rt: &R) -> bool {
        match (self.until, Instant::now(rt)) {
            (Some(until), Ok(now)) => until <= now,
            _ => false,
        }
    }

    /// The time after a pause, or the end of the window where it comes first.
    pub(crate) fn soon<R: Clock>(&self, rt: &R, pause: Duration) -> Option<Instant> {
        let later = Instant::now(rt).ok()?.checked_add(pause)?;
        Some(self.until.map_or(later, |until| until.min(later)))
    }

    /// The first lines of a text, as many as have room.
    pub(crate) fn first_rows<'t, R: Wait>(&self, rt: &R, text: &'t [u8]) -> &'t [u8]
        ensures { AreFirstLines text.entry.now result.now }
    {
        if !self.has_limit {
            return text;
        }
        let lines = first_lines(text, self.rows_left(rt));
        first_lines(lines, self.take_rows(rt, count_lines(lines)))
    }

    /// Whether so few rows have room that more lines aren't waited for.
    pub(crate) fn is_nearly_full<R: Wait>(&self, rt: &R) -> bool {
        self.has_limit && self.rows_left(rt) < MANY_ROWS
    }

    /// How many rows have room.
    fn rows_left<R: Wait>(&self, rt: &R) -> u64 {
        let left = self.rows_left.lock(rt);
        let rows = *left;
        MutexGuard::unlock(left);
        rows
    }

    /// How many of so many rows have room. Where that leaves none, the window is over with them.
    pub(crate) fn take_rows<R: Wait>(&self, rt: &R, rows: u64) -> u64 {
        let mut left = self.rows_left.lock(rt);
        let taken = rows.min(*left);
        *left = left.saturating_sub(taken);
        let is_over = *left == 0;
        MutexGuard::unlock(left);
        if is_over {
            self.is_over.store(true, Ordering::SeqCst);
        }
        taken
    }

    /// Ends the window before its time.
    pub(crate) fn end_early<R: Wait>(&self, rt: &R, cause: EarlyEnd) {
        let mut ended_early = self.ended_early.lock(rt);
        *ended_early = Some(cause);
        MutexGuard::unlock(ended_early);
        self.is_over.store(true, Ordering::SeqCst);
    }

    /// Why it ended before its time, where it did.
    pub(crate) fn ended_early<R: Wait>(&self, rt: &R) -> Option<EarlyEnd> {
        let ended_early = self.ended_early.lock(rt);
        let cause = *ended_early;
        MutexGuard::unlock(ended_early);
        cause
    }

    /// An adder is done.
    pub(crate) fn leave(&self) {
        self.working.fetch_sub(1, Ordering::SeqCst);
    }

    /// Whether an adder is at work.
    pub(crate) fn has_adders(&self) -> bool {
        self.working.load(Ordering::SeqCst) > 0
    }
}
