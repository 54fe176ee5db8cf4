//! A session: what one thread asks of a store, and what it was told.

ghost use Rattle.std.specs.Prelude.{◌≡◌, ◌≢◌, ◌<◌, ◌≤◌, ◌⊎◌, ◌++◌, ◌∷◌, [], ℕ, List, IfErr, IfOk, MatchResult};
ghost use Rattle.std.specs.Arc.{arc_value};
ghost use Rattle.op_book.specs.Changes.{change_op};
ghost use Rattle.op_book.specs.Operations.{PlainOp, PlainReceipt, add, answered, ask, plain_op, reset};
ghost use Rattle.flame_report.specs.declared.answer.Answer.{Answer};
ghost use Rattle.live_store.specs.Changes.{HasHeard, HasMade, HasReported, IsRefused, IsUnanswered, IsWindow};
ghost use Rattle.live_store.specs.Sessions.{IsBorneOut};
ghost use Rattle.live_store.specs.Stores.{IsUnseen};
ghost use Rattle.live_store.specs.Workers.{ops_told};

use crate::locked_book::Log;
use crate::store::Store;
use crate::told::{Placed, Told, Window};
use flame_report::{Answer, Items, Query};
use op_book::{BookFault, Change, Op, Receipt, Refused, Reply, SessionLog};
use profile_rows::Batch;
use shown_versions::{Front, StoreName, VersionReader};
use std::alloc::Global;
use std::marker::Model;
use std::sync::{Arc, MutexGuard, Wait};

/// What one thread asks of a store. It keeps a receipt of each operation that succeeded, and the changes of the store
/// that it knows of, which bear out its log.
#[derive(Drop)]
pub struct Session<'a, N: StoreName> {
    store: &'a Store<N>,
    log: Log,
    front: Front<N>,
    reader: VersionReader<N>,
}

impl<'a, N: StoreName> Model for Session<'a, N> {
    ghost use Rattle.std.specs.Prelude.{◌≡◌, ◌<◌};
    ghost use Rattle.live_store.specs.Sessions.{IsBorneOut};
    ghost use Rattle.live_store.specs.Stores.{SessionState};

    ghost Value = { SessionState };

    ghost view = { λ s. record { number = s.log.number; log = s.log.receipts.items; seen = s.front } };

    ghost invariant = { λ s. (s.log.number < N.sessions)
        × IsBorneOut s.log.number s.log.receipts.items s.front };
}

impl<'a, N: StoreName> Session<'a, N> {
    ghost use Rattle.std.specs.Borrow.{sem};
    ghost use Rattle.live_store.specs.LentAnswers.{HasAsked, ends_so};

    /// The session of an empty log, which knows of no change.
    pub(crate) fn new(
        store: &'a Store<N>,
        log: Log,
        front: Front<N>,
        reader: VersionReader<N>,
    ) -> Session<'a, N>
        requires number { log.number < N.sessions }
        requires nothing { log.receipts.items ≡ [] }
        requires fresh { front ≡ [] }
        ensures { result ≡ record { number = log.number; log = []; seen = [] } }
    {
        Session {
            store,
            log,
            front,
            reader,
        }
    }

    /// The session's number, from 0.
    pub fn number(&self) -> u32
        ensures number { result ≡ self.now.number }
        ensures known { self.now.number < N.sessions }
    {
        self.log.number()
    }

    /// The receipts so far, in order.
    pub fn log(&self) -> &[Receipt]
        ensures log { result.now ≡ self.now.log }
        ensures sound { IsBorneOut self.now.number self.now.log self.now.seen }
    {
        self.log.receipts()
    }

    /// The session's log. The session ends.
    pub fn close(self) -> SessionLog
        ensures { result ≡ record { session = self.entry.number; receipts = self.entry.log } }
    {
        SessionLog {
            session: self.log.number(),
            receipts: Items::new(self.log.into_receipts()),
        }
    }

    /// From now on the session knows of what was told: its answers take in that change and all before it.
    pub fn hear(&mut self, told: &Told<N>)
        ensures { HasHeard self.old told.now self.new }
    {
        self.front = self.front.longer(&told.front);
    }

    /// Adds the rows of a batch, and keeps the receipt.
    ///
    /// # Errors
    ///
    /// A [`BookFault`], which isn't `Version`. The log is then as it was, the batch is handed back, and the session
    /// knows of the changes that were the cause.
    pub fn add<R: Wait>(
        &mut self,
        rt: &R,
        alloc: Global,
        batch: Arc<Batch>,
    ) -> Result<Placed<N>, Refused<Arc<Batch>>>
        ensures changed { MatchResult result
            (λ placing. HasMade self.old (add (arc_value batch)) placing.place placing.told self.new)
            (λ refused. IsRefused N.limit N.sessions N.width self.old (add (arc_value batch)) self.new refused.fault) }
        ensures back { IfErr result (λ refused. refused.back ≡ batch) }
    {
        match self.change(rt, alloc, Change::Add(&batch)) {
            Ok(placed) => Ok(placed),
            Err(fault) => Err(Refused { fault, back: batch }),
        }
    }

    /// Empties the profile, and keeps the receipt: what was added before counts no more.
    ///
    /// # Errors
    ///
    /// A [`BookFault`], which is neither `Width`, `Heavy` nor `Version`. The log is then as it was, and the session
    /// knows of the changes that were the cause.
    pub fn reset<R: Wait>(&mut self, rt: &R, alloc: Global) -> Result<Placed<N>, BookFault>
        ensures changed { MatchResult result
            (λ placing. HasMade self.old reset placing.place placing.told self.new)
            (IsRefused N.limit N.sessions N.width self.old reset self.new) }
        ensures light { IfErr result (λ fault. (value held : ℕ) → fault ≢ BookFault.Heavy value held) }
    {
        self.change(rt, alloc, Change::Reset)
    }

    /// Empties the profile as [`reset`](Session::reset) does, and gives the tree of what it held at that very place:
    /// the additions since the reset before. It is one event: where nobody else calls `reset`, each addition is in
    /// exactly one such window. The tree is shared, not copied. Reports are made over it without the lock, and on any
    /// thread.
    ///
    /// # Errors
    ///
    /// Those of [`reset`](Session::reset). `NoMemory` also where the tree has as many owners as it can have.
    pub fn take<R: Wait>(&mut self, rt: &R, alloc: Global) -> Result<Window<N>, BookFault>
        ensures changed { MatchResult result
            (λ window. HasMade self.old reset window.placed.place window.placed.told self.new)
            (IsRefused N.limit N.sessions N.width self.old reset self.new) }
        ensures light { IfErr result (λ fault. (value held : ℕ) → fault ≢ BookFault.Heavy value held) }
        ensures window { IfOk result
            (λ window. IsWindow self.new.seen window.placed.place N.width (arc_value window.tree)) }
    {
        self.log.make_room()?;
        let mut book = self.store.lock(rt);
        let taken = book.take(rt, alloc, &mut self.front, &mut self.log);
        MutexGuard::unlock(book);
        taken
    }

    /// Makes a change, and keeps the receipt, for which memory is taken before the lock.
    fn change<R: Wait>(
        &mut self,
        rt: &R,
        alloc: Global,
        change: Change<'_>,
    ) -> Result<Placed<N>, BookFault>
        ensures { MatchResult result
            (λ placing. HasMade self.old (change_op change.entry) placing.place placing.told self.new)
            (IsRefused N.limit N.sessions N.width self.old (change_op change.entry) self.new) }
    {
        self.log.make_room()?;
        let mut book = self.store.lock(rt);
        let made = book.change(rt, alloc, &mut self.front, &mut self.log, change);
        MutexGuard::unlock(book);
        made
    }

    /// Answers a query over a version that is shown, and keeps the receipt, from which the answer is lent. It takes no
    /// lock. The query is shared. The contract speaks of the session once the answer is let go: its log then ends with
    /// exactly this receipt, which is the plain answer after the changes that the session then knows of.
    ///
    /// # Errors
    ///
    /// `Width` exactly where the query's value is none of the store's, and before anything is taken; `NoMemory`;
    /// `Version`. The session is then as it was.
    pub fn ask(&mut self, alloc: Global, query: &Arc<Query>) -> Result<&Answer, BookFault>
        ensures width { MatchResult result (λ _. (arc_value query.now).value < N.width) (λ fault.
            ((N.width ≤ (arc_value query.now).value) × (fault ≡ BookFault.Width N.width))
            ⊎ (((arc_value query.now).value < N.width) × IsUnseen fault)) }
        ensures* ends { sem 𝓛 (ends_so N.row N.StoreName self.entry
            (HasAsked self.entry.now (ask (arc_value query.now)) result)) }
    {
        self.report(alloc, query)?;
        Ok(self.last_answer())
    }

    /// Carries out an operation, and keeps its receipt.
    pub(crate) fn perform<R: Wait>(
        &mut self,
        rt: &R,
        alloc: Global,
        op: Op,
    ) -> Result<(), BookFault>
        ensures taken { MatchResult result
            (λ _. ops_told self.new.log ≡ ops_told self.old.log ++ plain_op op ∷ [])
            (IsUnanswered N.limit N.width self.old (plain_op op) self.new) }
        ensures number { self.new.number ≡ self.old.number }
    {
        match op {
            Op::Add(batch) => match self.add(rt, alloc, batch) {
                Ok(_) => Ok(()),
                Err(refused) => Err(refused.fault),
            },
            Op::Reset => match self.reset(rt, alloc) {
                Ok(_) => Ok(()),
                Err(fault) => Err(fault),
            },
            Op::Ask(query) => self.report(alloc, &query),
        }
    }

    /// Answers a query over a version that is shown, and keeps the receipt.
    fn report(&mut self, alloc: Global, query: &Arc<Query>) -> Result<(), BookFault>
        ensures reported { MatchResult result
            (λ _. HasReported self.old (ask (arc_value query.now)) self.new) (λ _. self.new ≡ self.old) }
        ensures width { MatchResult result (λ _. (arc_value query.now).value < N.width) (λ fault.
            ((N.width ≤ (arc_value query.now).value) × (fault ≡ BookFault.Width N.width))
            ⊎ (((arc_value query.now).value < N.width) × IsUnseen fault)) }
    {
        let held = self.store.width().get();
        if query.value >= held {
            return Err(BookFault::Width { held });
        }
        self.log.make_room()?;
        let made = match self.reader.report(alloc, query) {
            Ok(made) => made,
            Err(fault) => return Err(fault),
        };
        if !self.front.catch_up(&made.front) {
            drop(made);
            return Err(BookFault::Version);
        }
        self.log.keep_report(made.receipt);
        Ok(())
    }

    /// The answer of the last receipt.
    fn last_answer(&self) -> &Answer
        requires { (front : List PlainReceipt) × (op : PlainOp) × (answer : Answer) × (at : ℕ)
            × (self.now.log ≡ front ++ (record { op = op; reply = answered answer; at = at }) ∷ []) }
        ensures { (front : List PlainReceipt) (op : PlainOp) (answer : Answer) (at : ℕ)
            → self.now.log ≡ front ++ (record { op = op; reply = answered answer; at = at }) ∷ []
            → result.now ≡ answer }
    {
        let receipts = self.log.receipts();
        let last = &receipts[receipts.len() - 1];
        match &last.reply {
            Reply::Answered(answer) => answer,
            Reply::Placed(_) => unreachable!(),
        }
    }
}
