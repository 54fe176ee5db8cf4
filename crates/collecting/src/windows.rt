//! Windows of time, one after the other.

use crate::adding::{Adder, Told};
use crate::watching::Watch;
use crate::window::{EarlyEnd, Window};
use anyhow::Result;
use collect_sources::Messages;
use crossbeam_channel::Sender;
use profile_store::{Hashing, Query};
use std::alloc::Global;
use std::sync::{Arc, Mutex, MutexGuard, Wait};
use std::thread;
use std::thread::Threads;
use std::time::{Clock, Duration, Instant};
use store_window::{ClosedWindow, Slot, fill_window};

/// How many milliseconds the next window waits where one could take nothing.
const PAUSE: u64 = 1_000;

/// A window that is over.
#[derive(Drop)]
pub(crate) struct Closed {
    pub(crate) window: ClosedWindow,
    /// What its adders have to tell.
    pub(crate) told: Vec<Told>,
    /// Why it ended before its time, where it did.
    pub(crate) ended_early: Option<EarlyEnd>,
}

/// How windows are filled.
#[derive(Drop)]
pub(crate) struct Windows<'a> {
    pub(crate) alloc: Global,
    pub(crate) messages: &'a Messages,
    pub(crate) hashing: Hashing,
    pub(crate) length: Duration,
    /// Without a limit, where there is none.
    pub(crate) rows: Option<u64>,
    /// What is shown of a window while it fills.
    pub(crate) query: Arc<Query>,
    /// How often it is shown: never, where there is none.
    pub(crate) every: Option<Duration>,
}

impl<'a> Windows<'a> {
    /// Fills one window after the other until nothing more comes, and sends each.
    pub(crate) fn run<R: Threads + Wait + Clock + Sync>(
        self,
        rt: &R,
        adders: Vec<Mutex<Slot<Adder<'a>>>>,
        to: Sender<Closed>,
    ) {
        for _ in rt.forever() {
            match self.fill(rt, adders.as_slice()) {
                Ok(closed) => {
                    self.rest_after(rt, &closed);
                    if to.send(rt, closed).is_err() {
                        break;
                    }
                }
                Err(error) => {
                    let told = format_args!("no window could be opened: {error}");
                    self.messages.say(&told);
                    thread::sleep(rt, Duration::from_millis(PAUSE));
                }
            }
            if have_ended(rt, adders.as_slice()) {
                break;
            }
        }
    }

    /// Waits where a window could take nothing.
    fn rest_after<R: Clock>(&self, rt: &R, closed: &Closed) {
        let is_stopped = closed.ended_early.is_some() || closed.window.missing.is_some();
        if closed.window.is_empty() && is_stopped {
            thread::sleep(rt, Duration::from_millis(PAUSE));
        }
    }

    /// Fills a window.
    fn fill<R: Threads + Wait + Clock + Sync>(
        &self,
        rt: &R,
        adders: &[Mutex<Slot<Adder<'a>>>],
    ) -> Result<Closed> {
        let until = Instant::now(rt)?.checked_add(self.length);
        let window = Window::new(until, self.rows, adders.len() as u64);
        let watch = Watch {
            alloc: self.alloc,
            messages: self.messages,
            query: &self.query,
            every: self.every,
            window: Arc::new(self.alloc, window)?,
        };
        // Room for all that is told of a window comes before it: what was added isn't lost where there is none.
        let told = Vec::with_capacity(self.alloc, adders.len())?;
        for slot in adders {
            begin(rt, slot, Arc::try_clone(&watch.window)?);
        }
        let filled = fill_window(rt, self.alloc, self.hashing, adders, &watch)?;
        let ended_early = watch.window.ended_early(rt);
        let mut closed = self.closed(filled, told, ended_early);
        for slot in adders {
            let _ = closed.told.push(told_by(rt, slot));
        }
        Ok(closed)
    }

    /// A window that is over. It says so where not all sources took part.
    fn closed(
        &self,
        window: ClosedWindow,
        told: Vec<Told>,
        ended_early: Option<EarlyEnd>,
    ) -> Closed {
        if let Some(fault) = &window.missing {
            let told = format_args!("not all sources take part in a window: {fault}");
            self.messages.say(&told);
        }
        Closed {
            window,
            told,
            ended_early,
        }
    }
}

/// Has an adder take part in a window.
fn begin<R: Wait>(rt: &R, slot: &Mutex<Slot<Adder>>, window: Arc<Window>) {
    let mut slot = slot.lock(rt);
    slot.source.begin(window);
    MutexGuard::unlock(slot);
}

/// What an adder has to tell of the last window.
fn told_by<R: Wait>(rt: &R, slot: &Mutex<Slot<Adder>>) -> Told {
    let mut slot = slot.lock(rt);
    let told = slot.source.take_told();
    MutexGuard::unlock(slot);
    told
}

/// Whether all adders have added everything.
fn have_ended<R: Wait>(rt: &R, adders: &[Mutex<Slot<Adder>>]) -> bool {
    for slot in adders {
        let slot = slot.lock(rt);
        let has_ended = slot.source.has_ended();
        MutexGuard::unlock(slot);
        if !has_ended {
            return false;
        }
    }
    true
}
