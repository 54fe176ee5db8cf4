//! A window that nothing more is added to.

ghost use Rattle.std.specs.Prelude.{◌≡◌, ◌<◌, ℕ, IfOk};
ghost use Rattle.profile_store.specs.Aggregate.{aggregate_of};
ghost use Rattle.profile_store.specs.State.{weights_of};
ghost use Rattle.profile_store.specs.Values.{rows_at};
ghost use Rattle.store_window.specs.Added.{rows_added_by};

use crate::filling::WindowFault;
use profile_store::laws::logs_add_up;
use profile_store::{CallTree, Journal, SessionLog, audit};
use std::alloc::Global;

/// What a store and its sessions have to tell of a window.
#[derive(Drop)]
pub struct ClosedWindow {
    pub journal: Journal,
    /// What each source's session was told.
    pub logs: Vec<SessionLog>,
    /// Why not all sources took part, where that is so.
    pub missing: Option<WindowFault>,
}

impl ClosedWindow {
    /// Whether nothing was added.
    pub fn is_empty(&self) -> bool {
        self.journal.entries().is_empty()
    }

    /// The tree of all that the sources added, once the audit has found their logs to be one history. For every
    /// schedule of their threads it is the aggregate of exactly the rows that the logs tell of.
    ///
    /// # Errors
    ///
    /// `Audit`; `Reset` where the store was reset, which no source can do.
    pub fn audited_tree(&self, alloc: Global) -> Result<&CallTree, WindowFault>
        ensures sums { (value : ℕ) → IfOk result (λ tree.
            aggregate_of (rows_at value (rows_added_by self.now.logs.items)) ≡ weights_of tree.now value) }
        ensures wide { IfOk result (λ tree. 0 < tree.now.width) }
    {
        if self.journal.counting_from() != 0 {
            return Err(WindowFault::Reset);
        }
        audit(alloc, &self.journal, self.logs.as_slice())?;
        logs_add_up();
        Ok(self.journal.tree())
    }
}
