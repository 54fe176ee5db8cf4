//! A window that sources fill, each in a thread of its own, while a watcher asks.

use library_steps::{Made, Words, add_total, batch_of, is_total, query_of, width_of};
use profile_store::{Answer, Batch, BookFault, Hashing, Query};
use std::sync::atomic::{AtomicU64, Ordering};
use std::sync::{Arc, Mutex, MutexGuard, Wait};
use std::thread::Threads;
use std::time::Clock;
use store_window::{ClosedWindow, Slot, Source, Watcher, fill_window};

/// Gives these batches, the last one first, and keeps why one was refused.
#[derive(Drop)]
struct Batches {
    left: Vec<Arc<Batch>>,
    refused: Option<BookFault>,
    has_left: bool,
}

impl Source for Batches {
    fn next_batch<R: Wait + Clock>(&mut self, _rt: &R) -> Option<Arc<Batch>> {
        self.left.pop()
    }

    fn take_back<R: Wait>(&mut self, _rt: &R, _batch: Arc<Batch>, fault: BookFault) {
        self.refused = Some(fault);
    }

    fn leave(&mut self) {
        self.has_left = true;
    }
}

/// Asks for the total three times, and counts the answers.
#[derive(Drop)]
struct Asking {
    query: Arc<Query>,
    asked: AtomicU64,
    totals: AtomicU64,
}

impl Watcher for Asking {
    fn next_query<R: Wait + Clock>(&self, _rt: &R) -> Option<&Arc<Query>> {
        if self.asked.fetch_add(1, Ordering::SeqCst) < 3 {
            return Some(&self.query);
        }
        None
    }

    fn show(&self, answer: Result<&Answer, BookFault>) {
        if answer.is_ok_and(is_total) {
            let _ = self.totals.fetch_add(1, Ordering::SeqCst);
        }
    }
}

/// `sources`: a window that has a source for each line of the input. The batches of a source are parted by commas.
pub(crate) fn fill<R: Threads + Wait + Clock + Sync>(rt: &R, input: &[u8], made: &mut Made) {
    if let Some(query) = query_of(Words { text: "ask total" }, made) {
        let watcher = Asking {
            query,
            asked: AtomicU64::new(0),
            totals: AtomicU64::new(0),
        };
        let slots = slots_of(made.text_of(input), made);
        watch(rt, slots.as_slice(), &watcher, made);
        drop((slots, watcher));
    }
}

fn slots_of(text: &str, made: &mut Made) -> Vec<Mutex<Slot<Batches>>> {
    let mut slots = Vec::new(made.alloc());
    for line in text.lines() {
        let source = Batches {
            left: batches_of(line, made),
            refused: None,
            has_left: false,
        };
        made.keep(&mut slots, Mutex::new(Slot::new(source)));
    }
    slots
}

fn batches_of(line: &str, made: &mut Made) -> Vec<Arc<Batch>> {
    let mut batches = Vec::new(made.alloc());
    for text in line.split(',') {
        if let Some(batch) = batch_in(Words { text: text.trim() }, made) {
            made.keep(&mut batches, batch);
        }
    }
    batches
}

/// `main;a 3`, `width 2`: a batch of a row, or one of this width without rows.
fn batch_in(words: Words, made: &mut Made) -> Option<Arc<Batch>> {
    if !words.has("width") {
        return batch_of(words, b"", made);
    }
    let alloc = made.alloc();
    let batch = Batch::new(alloc, width_of(words, made));
    made.done(Arc::new(alloc, batch))
}

/// Adds what a window has, what each source was told, and how often the watcher was answered.
fn watch<R: Threads + Wait + Clock + Sync>(
    rt: &R,
    slots: &[Mutex<Slot<Batches>>],
    watcher: &Asking,
    made: &mut Made,
) {
    match fill_window(rt, made.alloc(), Hashing::fixed(), slots, watcher) {
        Ok(closed) => {
            tell_window(&closed, made);
            drop(closed);
        }
        Err(fault) => made.refuse(&fault),
    }
    for slot in slots {
        tell_source(rt, slot, made);
    }
    let totals = watcher.totals.load(Ordering::SeqCst);
    made.say(&format_args!("{totals} totals"));
}

/// Adds how many logs a window has, why not all sources took part, and the total once the logs are audited.
fn tell_window(closed: &ClosedWindow, made: &mut Made) {
    made.say(&format_args!("{} logs", closed.logs.len()));
    if let Some(missing) = closed.missing {
        made.refuse(&missing);
    }
    match closed.audited_tree(made.alloc()) {
        Ok(tree) => add_total(&tree.total(), made),
        Err(fault) => made.refuse(&fault),
    }
}

/// Adds why a batch of a source was refused, and whether the source has left.
fn tell_source<R: Wait>(rt: &R, slot: &Mutex<Slot<Batches>>, made: &mut Made) {
    let slot = slot.lock(rt);
    let (refused, has_left) = (slot.source.refused, slot.source.has_left);
    MutexGuard::unlock(slot);
    if let Some(fault) = refused {
        made.refuse(&fault);
    }
    made.say(&if has_left { "left" } else { "has not left" });
}
