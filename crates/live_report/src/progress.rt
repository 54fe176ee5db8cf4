//! Who hears how many rows are in, while workers add them.

ghost use Rattle.std.specs.Prelude.{◌≡◌, nat_lt};
ghost use Rattle.live_report.specs.Dealing.{row_of_step};

use live_store::Gate;
use std::sync::Wait;

/// Hears of rows while workers add them. What is written doesn't depend on it.
pub trait Progress: Sync {
    /// A worker is done with a row more: it is in, unless it was refused, and then the run ends with a fault. The
    /// workers' threads call this, several at once.
    fn row_in<R: Wait>(&self, rt: &R);
}

/// Hears nothing.
#[derive(Drop)]
pub struct NoProgress;

impl Progress for NoProgress {
    fn row_in<R: Wait>(&self, _rt: &R) {}
}

/// Tells of each row that a worker is done with, and holds no worker.
#[derive(Drop)]
pub(crate) struct RowGate<'a, P: Progress> {
    pub(crate) progress: &'a P,
    /// How many rows were dealt.
    pub(crate) rows: usize,
    /// To how many workers.
    pub(crate) workers: usize,
}

/// Whether a worker's step is the addition of one of so many rows, and not a question at its end.
fn is_row(rows: usize, workers: usize, worker: usize, step: usize) -> bool
    ensures { result ≡ nat_lt (row_of_step workers worker step) rows }
{
    step.saturating_mul(workers).saturating_add(worker) < rows
}

impl<'a, P: Progress> Gate for RowGate<'a, P> {
    fn before<R: Wait>(&self, _rt: &R, _worker: usize, _step: usize) {}

    fn after<R: Wait>(&self, rt: &R, worker: usize, step: usize) {
        if is_row(self.rows, self.workers, worker, step) {
            self.progress.row_in(rt);
        }
    }
}
