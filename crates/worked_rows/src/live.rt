//! What `live` writes: `live sessions 2 all warm`.

use library_steps::{Made, Words, Wrong, batch_of};
use live_report::{LiveOptions, Progress, live_text};
use profile_store::{Batch, Hashing};
use std::sync::atomic::{AtomicU64, Ordering};
use std::sync::{Arc, Wait};
use std::thread::Threads;

/// How many rows were heard of.
#[derive(Drop)]
struct Heard {
    rows: AtomicU64,
}

impl Progress for Heard {
    fn row_in<R: Wait>(&self, _rt: &R) {
        let _ = self.rows.fetch_add(1, Ordering::SeqCst);
    }
}

/// Adds what is written of the rows of the input, and of how many rows is told. With `of a 1 2` at the end of the
/// command it is of this row.
pub(crate) fn run_live<R: Threads + Wait + Sync>(
    rt: &R,
    words: Words,
    input: &[u8],
    made: &mut Made,
) {
    let (_, row) = words.text.split_once(" of ").unwrap_or(("", ""));
    let sessions = made.number_after(words, "sessions", 2);
    let options = LiveOptions::new(sessions, words.has("all"), words.has("warm"));
    let batch = batch_of(Words { text: row }, input, made);
    match options.zip(batch) {
        Some((options, batch)) => tell_live(rt, options, batch, made),
        None => made.fail(Wrong::Command),
    }
}

fn tell_live<R: Threads + Wait + Sync>(
    rt: &R,
    options: LiveOptions,
    batch: Arc<Batch>,
    made: &mut Made,
) {
    let heard = Heard {
        rows: AtomicU64::new(0),
    };
    match live_text(rt, made.alloc(), Hashing::fixed(), &heard, batch, options) {
        Ok(text) => made.add(text.as_slice()),
        Err(fault) => return made.refuse(&fault),
    }
    let rows = heard.rows.load(Ordering::SeqCst);
    made.say(&format_args!("heard of {rows} rows"));
}
