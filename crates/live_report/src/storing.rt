//! Storing what workers are to do, and hearing what they were told.

ghost use Rattle.std.specs.Prelude.{ℕ, ◌≡◌, ◌≤◌, ◌+◌, ◌++◌, ◌∷◌, [], List, IfOk, MatchBool, MatchResult, None, OnOk};
ghost use Rattle.std.specs.Prelude.{Some, length, map, option_map, vec_capacity};
ghost use Rattle.std.specs.Arc.{arc_value};
ghost use Rattle.op_book.specs.Operations.{PlainOp, add, plain_op, reset};
ghost use Rattle.live_store.specs.Workers.{AreWorkOf, ops_told};
ghost use Rattle.live_report.specs.Dealing.{IsWarm, total_at, warm_lists};
ghost use Rattle.live_report.specs.Faults.{fault_of_stop, first_stop};

use crate::dealing::total_query;
use crate::fault::LiveFault;
use live_store::{Blank, Cause, FinishedWorker, Gate, Store, StoreName, run_workers};
use op_book::{Journal, Op, SessionLog};
use profile_rows::Batch;
use std::alloc::Global;
use std::sync::{Arc, Wait};
use std::thread::Threads;

/// What a closed store leaves, and what its sessions were told.
#[derive(Drop)]
pub(crate) struct Stored {
    pub(crate) journal: Journal,
    pub(crate) logs: Vec<SessionLog>,
}

/// Warms a store where a batch is given for it, then gives each list of operations to a worker, and closes the store.
pub(crate) fn store<N: StoreName, G: Gate, R: Threads + Wait + Sync>(
    rt: &R,
    alloc: Global,
    blank: Blank,
    warm: Option<Arc<Batch>>,
    lists: Vec<Vec<Op>>,
    gate: &G,
) -> Result<Stored, LiveFault>
    requires { blank
        ≡ record { limit = N.limit; sessions = N.sessions; width = N.width; history = N.history } }
    ensures told { IfOk result (λ stored. map (λ log. ops_told log.receipts) stored.logs.items
        ≡ warm_lists (option_map arc_value warm) ++ map (λ list. map plain_op list.items) lists.items) }
    ensures width { IfOk result (λ stored. stored.journal.width ≡ blank.width) }
{
    let store = Store::<N>::start(blank);
    let logs = work(rt, alloc, &store, warm, lists, gate);
    let journal = store.close(rt);
    match logs {
        Ok(logs) => Ok(Stored { journal, logs }),
        Err(fault) => {
            drop(journal);
            Err(fault)
        }
    }
}

/// The logs of all sessions, that of the warm start first.
fn work<N: StoreName, G: Gate, R: Threads + Wait + Sync>(
    rt: &R,
    alloc: Global,
    store: &Store<N>,
    warm: Option<Arc<Batch>>,
    lists: Vec<Vec<Op>>,
    gate: &G,
) -> Result<Vec<SessionLog>, LiveFault>
    ensures { IfOk result (λ logs. map (λ log. ops_told log.receipts) logs.items
        ≡ warm_lists (option_map arc_value warm) ++ map (λ list. map plain_op list.items) lists.items) }
{
    let mut logs = Vec::new(alloc);
    if let Some(batch) = warm {
        logs.push(warm_up(rt, alloc, store, batch)?)?;
    }
    let worked = run_workers(rt, alloc, store, lists, gate)?;
    logs.reserve(worked.len())?;
    push_logs(&mut logs, worked)?;
    Ok(logs)
}

/// Adds a batch by a session of its own, asks for the total, and resets the store.
fn warm_up<N: StoreName, R: Wait>(
    rt: &R,
    alloc: Global,
    store: &Store<N>,
    batch: Arc<Batch>,
) -> Result<SessionLog, LiveFault>
    ensures { IfOk result
        (λ log. ops_told log.receipts ≡ add (arc_value batch) ∷ total_at 0 ∷ reset ∷ []) }
{
    let mut session = store.session(rt, alloc)?;
    if let Err(refused) = session.add(rt, alloc, batch) {
        return Err(LiveFault::from(refused.fault));
    }
    let query = Arc::new(alloc, total_query(0))?;
    let _ = session.ask(alloc, &query)?;
    let _ = session.reset(rt, alloc)?;
    Ok(session.close())
}

/// Adds the logs of workers of which none stopped, for which there is memory.
fn push_logs(logs: &mut Vec<SessionLog>, worked: Vec<FinishedWorker>) -> Result<(), LiveFault>
    requires { length logs.old.items + length worked.items ≤ vec_capacity logs.old }
    ensures told { (limit width : ℕ) (lists : List (List PlainOp)) → AreWorkOf limit width lists worked.items
        → OnOk result (map (λ log. ops_told log.receipts) logs.new.items
        ≡ map (λ log. ops_told log.receipts) logs.old.items ++ lists) }
    ensures fault { MatchResult result (λ _. first_stop worked.items ≡ None)
        (λ fault. option_map (λ stop. fault_of_stop stop.cause) (first_stop worked.items) ≡ Some fault) }
{
    for one in worked {
        let FinishedWorker { log, stopped } = one;
        if let Some(stop) = stopped {
            return Err(stop_fault(stop.cause));
        }
        logs.push_reserved(log);
    }
    Ok(())
}

/// Whether the reset of a warm start is the second change of its store: then it stands after the addition of the first
/// log, and before all others.
pub(crate) fn is_warm(logs: &[SessionLog]) -> bool
    ensures { MatchBool result (IsWarm logs.now) (IsWarm logs.now → ⊥) }
{
    let Some(log) = logs.first() else {
        return false;
    };
    match log.receipts.as_slice().get(2) {
        Some(receipt) => receipt.at == 1,
        None => false,
    }
}

/// The fault of a worker that stopped.
fn stop_fault(cause: Cause) -> LiveFault
    ensures { result ≡ fault_of_stop cause }
{
    match cause {
        Cause::Book(fault) => LiveFault::from(fault),
        Cause::Start => LiveFault::Start,
    }
}
