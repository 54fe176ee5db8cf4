//! The book of a store: the journal so far, and the tree of what counts.

ghost use Rattle.std.specs.Prelude.{◌≡◌, ◌<◌, ◌≤◌, IfOk};
ghost use Rattle.op_book.specs.Books.{AreTotals, IsBook, IsNewBook, IsTreeAfter, journal_of};
ghost use Rattle.op_book.specs.Runs.{most_sessions};
ghost use Rattle.std.specs.Arc.{arc_value};

use crate::entry::{Entry, Receipt};
use crate::journal::Journal;
use crate::ledger::Ledger;
use call_tree::{CallTree, Grower, Plan};
use flame_report::NoMemory;
use profile_rows::laws::sums_are_those_of_the_aggregate;
use profile_rows::{Hashing, Weights, Width};
use std::alloc::{AllocError, Global};
use std::marker::Model;
use std::snapshot::Snapshot;
use std::sync::Arc;

mod changing;

pub use changing::Change;

/// The most sessions of a book.
pub const MAX_SESSIONS: u32 = 64;

/// Changes in order, each with its reply, and the tree of what they added since the last reset. Whatever is done to a
/// book, its tree is the aggregate of the additions that count, and each reply is what the plain profile gives after
/// the changes before.
#[derive(Drop)]
pub struct Book {
    ledger: Ledger,
    grower: Grower,
}

impl Model for Book {
    ghost use Rattle.std.specs.Prelude.{ℕ, ◌≡◌};
    ghost use Rattle.profile_rows.specs.Aggregate.{aggregates_of};
    ghost use Rattle.call_tree.specs.State.{weights_of};
    ghost use Rattle.op_book.specs.Books.{BookState};
    ghost use Rattle.op_book.specs.Operations.{operations_of, profile_after};

    ghost Value = { BookState };

    ghost view = { λ b. record {
      entries = b.ledger.entries;
      tree = b.grower;
      limit = b.ledger.limit;
      sessions = b.ledger.sessions;
      width = b.ledger.width;
      capacity = b.ledger.capacity;
    } };

    ghost invariant = { λ b. (b.grower.width ≡ b.ledger.width) × ((value : ℕ)
        → weights_of b.grower value ≡ aggregates_of (profile_after (operations_of b.ledger.entries)) value) };
}

/// A change that a book has all memory for. It remembers the book as it was when it was prepared, and serves it as long
/// as it is so. It may be dropped.
#[derive(Drop)]
pub struct Ready {
    plan: Plan,
    entry: Entry,
    receipt: Receipt,
    ledger: Snapshot<Ledger>,
}

impl Model for Ready {
    ghost use Rattle.op_book.specs.Books.{IsReady, ReadyState};

    ghost Value = { ReadyState };

    ghost view = { λ r. record {
      before = record {
        entries = r.ledger.value.entries;
        tree = r.plan.before;
        limit = r.ledger.value.limit;
        sessions = r.ledger.value.sessions;
        width = r.ledger.value.width;
        capacity = r.ledger.value.capacity;
      };
      session = r.entry.session;
      turn = r.entry.turn;
      op = r.entry.op;
      next = r.plan.next;
    } };

    ghost invariant = { λ r. IsReady (record {
      before = record {
        entries = r.ledger.value.entries;
        tree = r.plan.before;
        limit = r.ledger.value.limit;
        sessions = r.ledger.value.sessions;
        width = r.ledger.value.width;
        capacity = r.ledger.value.capacity;
      };
      session = r.entry.session;
      turn = r.entry.turn;
      op = r.entry.op;
      next = r.plan.next;
    }) r.entry r.receipt };
}

impl Ready {
    /// The tree after the change.
    pub fn next(&self) -> &CallTree
        ensures next { result.now ≡ self.now.next }
        ensures tree { IsTreeAfter self.now.before self.now.op self.now.next }
    {
        self.plan.next()
    }

    /// Another owner of that tree, which takes no memory.
    ///
    /// # Errors
    ///
    /// `AllocError`, where the tree has as many owners as it can have.
    pub fn share_next(&self) -> Result<Arc<CallTree>, AllocError>
        ensures next { IfOk result (λ tree. arc_value tree ≡ self.now.next) }
    {
        self.plan.share_next()
    }
}

impl Book {
    /// A book without entries, for at most `limit` of them, of sessions that are numbered from 0: 1 to 64. Each row
    /// that is added has as many values as the width says.
    ///
    /// # Errors
    ///
    /// `NoMemory`.
    pub fn new(alloc: Global, limit: u32, sessions: u32, width: Width) -> Result<Book, NoMemory>
        requires some { 0 < sessions }
        requires few { sessions ≤ most_sessions }
        ensures { IfOk result (IsNewBook limit sessions width) }
    {
        Book::with_hashing(alloc, Hashing::fixed(), limit, sessions, width)
    }

    /// As [`new`](Book::new), and `hashing` says how names are hashed.
    ///
    /// # Errors
    ///
    /// `NoMemory`.
    pub fn with_hashing(
        alloc: Global,
        hashing: Hashing,
        limit: u32,
        sessions: u32,
        width: Width,
    ) -> Result<Book, NoMemory>
        requires some { 0 < sessions }
        requires few { sessions ≤ most_sessions }
        ensures { IfOk result (IsNewBook limit sessions width) }
    {
        let ledger = Ledger::new(alloc, limit, sessions, width)?;
        let grower = Grower::with_hashing(alloc, hashing, width)?;
        Ok(Book { ledger, grower })
    }

    /// The tree of what counts.
    pub fn tree(&self) -> &CallTree
        ensures { result.now ≡ self.now.tree }
    {
        self.grower.tree()
    }

    /// The entries, in the order in which the changes were made.
    pub fn entries(&self) -> &[Entry]
        ensures { result.now ≡ self.now.entries }
    {
        self.ledger.entries()
    }

    /// The book closed: what it holds, to which nothing is added any more. Takes no memory.
    pub fn into_journal(self) -> Journal
        ensures { result ≡ journal_of self }
    {
        Journal::new(self)
    }

    /// Does nothing; its clause says what every book keeps.
    pub fn facts(&self)
        ensures { IsBook self.now }
    {
        let _ = self.ledger.entries();
        let _ = self.grower.tree();
        let _ = self.ledger.width().get();
    }

    /// What all rows that count weigh, by each value.
    fn totals(&self) -> Weights
        ensures { AreTotals self.now result }
    {
        sums_are_those_of_the_aggregate();
        self.grower.tree().total()
    }

    /// How many values a row has.
    pub(crate) fn width(&self) -> Width
        ensures { result ≡ self.now.width }
    {
        self.ledger.width()
    }

    /// How many sessions the book has.
    pub(crate) fn sessions(&self) -> u32
        ensures { result ≡ self.now.sessions }
    {
        self.ledger.sessions()
    }
}
