//! How a book changes: at once, or by a change that is prepared and then settled.

ghost use Rattle.std.specs.Prelude.{◌≡◌, ◌≢◌, ◌+◌, ◌<◌, ◌^◌, ℕ, IfErr, IfOk, MatchResult, OnOk};
ghost use Rattle.std.specs.Arc.{arc_value};
ghost use Rattle.call_tree.specs.State.{total_in, weights_of};
ghost use Rattle.op_book.specs.Books.{HasSpaceFor, IsBook, IsChangeRefused, IsJournalled, IsMade, IsPlanned};
ghost use Rattle.op_book.specs.Books.{IsPrepared, IsSameBook, IsSpaceFault};
ghost use Rattle.op_book.specs.Changes.{change_op};
ghost use Rattle.op_book.specs.Operations.{add, plain_op, reset};
ghost use Rattle.profile_rows.specs.Rows.{total_of};
ghost use Rattle.profile_rows.specs.Values.{rows_at};

use super::{Book, Ready};
use crate::entry::{Entry, Receipt};
use crate::fault::{BookFault, Refused};
use crate::operation::{Op, Reply};
use call_tree::Plan;
use profile_rows::laws::aggregate_of_more_rows;
use profile_rows::{Batch, first_heavy};
use std::alloc::{AllocError, Global};
use std::snapshot::Snapshot;
use std::sync::Arc;

/// A change that a session asks for.
#[derive(Clone, Copy)]
pub enum Change<'a> {
    /// Adds the rows of a batch.
    Add(&'a Arc<Batch>),
    /// Empties the profile: what was added before counts no more.
    Reset,
}

impl<'a> Change<'a> {
    /// The change as an operation.
    fn op(self) -> Result<Op, AllocError>
        ensures { IfOk result (λ op. plain_op op ≡ change_op self.entry) }
    {
        match self {
            Change::Add(batch) => Ok(Op::Add(Arc::try_clone(batch)?)),
            Change::Reset => Ok(Op::Reset),
        }
    }
}

impl Book {
    /// Adds the rows of a batch as the turn of a session. The journal gets exactly one entry, of which the receipt
    /// tells.
    ///
    /// # Errors
    ///
    /// The first [`BookFault`]: `NoMemory` only where there is no other. The book is then as it was, and the batch is
    /// handed back.
    pub fn add(
        &mut self,
        alloc: Global,
        session: u32,
        turn: u64,
        batch: Arc<Batch>,
    ) -> Result<Receipt, Refused<Arc<Batch>>>
        ensures made { MatchResult result (IsMade self.old session turn (add (arc_value batch)) self.new)
            (λ refused. IsChangeRefused self.old session turn (add (arc_value batch)) self.new refused.fault) }
        ensures back { IfErr result (λ refused. refused.back ≡ batch) }
        ensures kept { IsBook self.new }
    {
        let added = self.add_rows(alloc, session, turn, &batch);
        self.facts();
        match added {
            Ok(receipt) => Ok(receipt),
            Err(fault) => Err(Refused { fault, back: batch }),
        }
    }

    /// Empties the profile as the turn of a session: what was added before counts no more. The journal gets exactly one
    /// entry, of which the receipt tells.
    ///
    /// # Errors
    ///
    /// The first [`BookFault`], which is neither `Width` nor `Heavy`: `NoMemory` only where there is no other. The book
    /// is then as it was.
    pub fn reset(&mut self, alloc: Global, session: u32, turn: u64) -> Result<Receipt, BookFault>
        ensures made { MatchResult result (IsMade self.old session turn reset self.new)
            (IsChangeRefused self.old session turn reset self.new) }
        ensures light { IfErr result (λ fault. (value held : ℕ) → fault ≢ BookFault.Heavy value held) }
        ensures kept { IsBook self.new }
    {
        let ready = self.prepare(alloc, session, turn, Change::Reset)?;
        Ok(self.settle(ready))
    }

    /// Takes all memory that a change needs, which [`settle`](Book::settle) then makes. What the book holds stays. A
    /// batch is shared, so that a caller still has it where it doesn't go on to settle.
    ///
    /// # Errors
    ///
    /// Those of [`add`](Book::add) and of [`reset`](Book::reset).
    pub fn prepare(
        &mut self,
        alloc: Global,
        session: u32,
        turn: u64,
        change: Change<'_>,
    ) -> Result<Ready, BookFault>
        ensures ready { MatchResult result (IsPrepared self.old session turn (change_op change.entry) self.new)
            (IsChangeRefused self.old session turn (change_op change.entry) self.new) }
        ensures kept { IsBook self.new }
    {
        let ready = self.ready(alloc, session, turn, change);
        self.facts();
        ready
    }

    /// Makes the change that this book, as it is now, was prepared for: the journal gets exactly one entry, of which
    /// the receipt tells. Takes no memory.
    pub fn settle(&mut self, ready: Ready) -> Receipt
        requires { ready.before ≡ self.old }
        ensures made { IsMade self.old ready.session ready.turn ready.op self.new result }
        ensures tree { self.new.tree ≡ ready.next }
        ensures kept { IsBook self.new }
    {
        let Ready {
            plan,
            entry,
            receipt,
            ledger: _,
        } = ready;
        self.ledger.append(entry);
        self.grower.credit(plan);
        self.facts();
        receipt
    }

    /// Adds the rows of a batch. All memory for the journal is taken, and the entry made, before the tree grows, so
    /// that a change that is refused shows in neither.
    fn add_rows(
        &mut self,
        alloc: Global,
        session: u32,
        turn: u64,
        batch: &Arc<Batch>,
    ) -> Result<Receipt, BookFault>
        ensures { MatchResult result (IsMade self.old session turn (add (arc_value batch.now)) self.new)
            (IsChangeRefused self.old session turn (add (arc_value batch.now)) self.new) }
    {
        self.facts();
        self.ledger.admit(session, turn)?;
        self.check_batch(batch)?;
        self.ledger.reserve()?;
        let place = self.ledger.len();
        let (entry, receipt) = journalled(session, turn, Change::Add(batch), place)?;
        aggregate_of_more_rows();
        self.grower.add(alloc, batch)?;
        self.ledger.append(entry);
        Ok(receipt)
    }

    /// What a change needs: the next tree, memory for its entry, and what its session will be told.
    fn ready(
        &mut self,
        alloc: Global,
        session: u32,
        turn: u64,
        change: Change<'_>,
    ) -> Result<Ready, BookFault>
        ensures { MatchResult result (IsPrepared self.old session turn (change_op change.entry) self.new)
            (IsChangeRefused self.old session turn (change_op change.entry) self.new) }
    {
        self.facts();
        self.ledger.admit(session, turn)?;
        let plan = self.plan(alloc, change)?;
        self.ledger.reserve()?;
        let place = self.ledger.len();
        let (entry, receipt) = journalled(session, turn, change, place)?;
        Ok(Ready {
            plan,
            entry,
            receipt,
            ledger: Snapshot::of(&self.ledger),
        })
    }

    /// The tree after a change of the book's width that keeps the limit of each value.
    fn plan(&mut self, alloc: Global, change: Change<'_>) -> Result<Plan, BookFault>
        ensures planned { MatchResult result (IsPlanned self.old (change_op change.entry) self.new.tree)
            (IsSpaceFault self.old (change_op change.entry)) }
        ensures unchanged { IsSameBook self.old self.new }
    {
        match change {
            Change::Add(batch) => {
                self.check_batch(batch)?;
                aggregate_of_more_rows();
                Ok(self.grower.plan(alloc, batch)?)
            }
            Change::Reset => {
                self.facts();
                Ok(self.grower.plan_reset(alloc)?)
            }
        }
    }

    /// Whether a batch has the book's width and keeps the limit of each value.
    fn check_batch(&self, batch: &Batch) -> Result<(), BookFault>
        ensures space { MatchResult result (λ _. HasSpaceFor self.now (add batch.now))
            (IsSpaceFault self.now (add batch.now)) }
        ensures memory { IfErr result (λ fault. fault ≢ BookFault.NoMemory) }
        ensures tree { OnOk result ((value : ℕ)
            → total_in (weights_of self.now.tree value) + total_of (rows_at value batch.now.rows) < 2 ^ 63) }
    {
        self.facts();
        let width = self.width();
        if batch.width() != width {
            return Err(BookFault::Width { held: width.get() });
        }
        let totals = self.totals();
        match first_heavy(&totals, &batch.total()) {
            Some(value) => Err(BookFault::Heavy {
                value,
                held: totals.value(value),
            }),
            None => Ok(()),
        }
    }
}

/// The entry of a change at this place, and what its session is told of it.
fn journalled(
    session: u32,
    turn: u64,
    change: Change<'_>,
    place: u64,
) -> Result<(Entry, Receipt), AllocError>
    ensures { IfOk result (λ made. IsJournalled session turn (change_op change.entry) place made.0 made.1) }
{
    let kept = change.op()?;
    let entry = Entry {
        session,
        turn,
        op: kept,
        reply: Reply::Placed(place),
    };
    let told = change.op()?;
    let receipt = Receipt {
        op: told,
        reply: Reply::Placed(place),
        at: place,
    };
    Ok((entry, receipt))
}
