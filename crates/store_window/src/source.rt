//! What is added to a window, and who watches it.

use profile_store::{Answer, Batch, BookFault, Query, SessionLog};
use std::sync::{Arc, Wait};
use std::time::Clock;

/// What one thread adds to windows.
pub trait Source {
    /// The next batch of one value a row. Nothing ends the source's part in the window.
    fn next_batch<R: Wait + Clock>(&mut self, rt: &R) -> Option<Arc<Batch>>;

    /// Takes back a batch that the store refused, which is in no window. The source's part in this one ends.
    fn take_back<R: Wait>(&mut self, rt: &R, batch: Arc<Batch>, fault: BookFault);

    /// The source's part in the window has ended.
    fn leave(&mut self);
}

/// A source, and what its session was told in the last window.
#[derive(Drop)]
pub struct Slot<S: Drop> {
    pub source: S,
    pub(crate) log: Option<SessionLog>,
}

impl<S: Drop> Slot<S> {
    /// A source that took part in no window.
    pub fn new(source: S) -> Slot<S> {
        Slot { source, log: None }
    }
}

/// Who asks for reports while a window fills, without holding anybody up.
pub trait Watcher {
    /// The next query, once it is time for it. Nothing ends the watch.
    fn next_query<R: Wait + Clock>(&self, rt: &R) -> Option<&Arc<Query>>;

    /// Takes the answer, or why there is none.
    fn show(&self, answer: Result<&Answer, BookFault>);
}

/// Asks for nothing.
#[derive(Drop)]
pub struct NoWatcher;

impl Watcher for NoWatcher {
    fn next_query<R: Wait + Clock>(&self, _rt: &R) -> Option<&Arc<Query>> {
        None
    }

    fn show(&self, _answer: Result<&Answer, BookFault>) {}
}
