//! Workers: threads of which each takes the operations of a list to a session of its own.

ghost use Rattle.std.specs.Prelude.{◌≡◌, ◌≢◌, ◌<◌, ◌≤◌, [], length, map, vec_capacity, All, IfOk, IfSome, IsSomeAnd};
ghost use Rattle.std.specs.Prelude.{MatchOption, MatchResult};
ghost use Rattle.std.specs.Option.{ForSome};
ghost use Rattle.op_book.specs.Operations.{plain_op};
ghost use Rattle.live_store.specs.Workers.{AreFinished, AreSeenWork, IsFinished, IsStarted};
ghost use Rattle.live_store.specs.Workers.{IsStopShown, IsStoppedBy, IsWorkersFault, ops_told};

use crate::fault::WorkersFault;
use crate::session::Session;
use crate::store::Store;
use flame_report::Items;
use op_book::{BookFault, Op, SessionLog};
use shown_versions::StoreName;
use std::alloc::{AllocError, Global};
use std::marker::PhantomData;
use std::snapshot::Snapshot;
use std::sync::Wait;
use std::thread;
use std::thread::{Promise, PromisedHandle, Threads};
use thiserror::Error;

/// What is called around each step of each worker, a refused one included. Workers and steps are numbered from 0.
pub trait Gate: Sync {
    /// The worker is about to take the operation of this step.
    fn before<R: Wait>(&self, rt: &R, worker: usize, step: usize);

    /// The worker was answered or refused.
    fn after<R: Wait>(&self, rt: &R, worker: usize, step: usize);
}

/// Holds no worker.
#[derive(Drop)]
pub struct Ungated;

impl Gate for Ungated {
    fn before<R: Wait>(&self, _rt: &R, _worker: usize, _step: usize) {}

    fn after<R: Wait>(&self, _rt: &R, _worker: usize, _step: usize) {}
}

/// Why a worker stopped.
#[derive(Clone, Copy, Debug, PartialEq, Eq, Error)]
pub enum Cause {
    /// Its session was refused the operation.
    #[error("{0}")]
    Book(BookFault),
    /// Its thread couldn't be started.
    #[error("G3 Start")]
    Start,
}

/// Where a worker stopped, and why.
#[derive(Clone, Copy, Debug, PartialEq, Eq, Error)]
#[error("G4 Stop step {step} cause {cause}")]
pub struct Stop {
    /// The number of the operation that it wasn't answered, from 0.
    pub step: usize,
    pub cause: Cause,
}

/// What a worker did.
#[derive(Debug, Drop)]
pub struct FinishedWorker {
    /// What its session was told.
    pub log: SessionLog,
    /// Where it stopped; nothing where all its operations were answered.
    pub stopped: Option<Stop>,
}

/// A session that was told nothing yet, and what it is to do.
#[derive(Drop)]
struct Worker<'a, N: StoreName> {
    session: Session<'a, N>,
    /// The number of its list.
    place: usize,
    list: Vec<Op>,
    ghost fresh: { session.log ≡ [] },
}

/// A worker works on this list, by the session of this number.
#[derive(Drop)]
struct WorkerPromise<N: StoreName> {
    session: u32,
    list: Snapshot<Vec<Op>>,
    of: PhantomData<N>,
}

impl<N: StoreName> Promise<FinishedWorker> for WorkerPromise<N> {
    ghost use Rattle.std.specs.Prelude.{◌≡◌, map};
    ghost use Rattle.op_book.specs.Operations.{plain_op};
    ghost use Rattle.live_store.specs.Workers.{IsFinished, IsStarted};

    ghost kept_by = { λ promise worked. IsFinished N.limit N.width N.sessions (map plain_op promise.list.value.items)
        promise.session worked × IsStarted worked };
}

/// A worker, and its thread, where one could be had.
#[derive(Drop)]
struct StartedWorker<N: StoreName> {
    session: u32,
    list: Snapshot<Vec<Op>>,
    thread: Option<PromisedHandle<FinishedWorker, WorkerPromise<N>>>,
    ghost same: { ForSome thread (λ handle. (handle.promise.list.value ≡ list.value)
        × (handle.promise.session ≡ session)) },
}

/// Gives each list of operations to a session of its own, in a thread of its own, and returns what each did, in the
/// order of the lists, with a log that some list of changes bears out, which also shows the cause of its refusal. A
/// worker stops at its first refusal.
///
/// # Errors
///
/// `Session` with the number of the first list for which the store gave no session; `NoMemory`. No worker has started
/// then, and sessions that were already opened have used up their numbers.
pub fn run_workers<'a, N: StoreName, G: Gate, R: Threads + Wait + Sync>(
    rt: &R,
    alloc: Global,
    store: &'a Store<N>,
    lists: Vec<Vec<Op>>,
    gate: &G,
) -> Result<Vec<FinishedWorker>, WorkersFault>
    ensures { MatchResult result (λ all. AreSeenWork N.limit N.width N.sessions
        (map (λ list. map plain_op list.items) lists.items) all.items) (IsWorkersFault (length lists.items)) }
{
    let workers = open(rt, alloc, store, lists)?;
    Ok(work_all(rt, alloc, workers, gate)?)
}

/// A session for each list.
fn open<'a, N: StoreName, R: Wait>(
    rt: &R,
    alloc: Global,
    store: &'a Store<N>,
    lists: Vec<Vec<Op>>,
) -> Result<Vec<Worker<'a, N>>, WorkersFault>
    ensures { MatchResult result (λ workers. map (λ worker. map plain_op worker.list.items) workers.items
        ≡ map (λ list. map plain_op list.items) lists.items) (IsWorkersFault (length lists.items)) }
{
    let mut workers = Vec::with_capacity(alloc, lists.len())?;
    for list in lists {
        let place = workers.len();
        match store.session(rt, alloc) {
            Ok(session) => workers.push_reserved(Worker {
                session,
                place,
                list,
            }),
            Err(fault) => {
                return Err(WorkersFault::Session {
                    worker: place,
                    fault,
                });
            }
        }
    }
    Ok(workers)
}

/// Starts a thread for each worker, and joins all. Memory for what they do is there before the first is started.
fn work_all<'a, N: StoreName, G: Gate, R: Threads + Wait + Sync>(
    rt: &R,
    alloc: Global,
    workers: Vec<Worker<'a, N>>,
    gate: &G,
) -> Result<Vec<FinishedWorker>, AllocError>
    ensures { IfOk result (λ all. AreFinished N.limit N.width N.sessions
        (map (λ worker. map plain_op worker.list.items) workers.entry.items)
        (map (λ worker. worker.session.number) workers.entry.items) all.items) }
{
    let begun = Vec::with_capacity(alloc, workers.len())?;
    let worked = Vec::with_capacity(alloc, workers.len())?;
    Ok(thread::scope(
        thread::scope_env(),
        rt,
        move |scope| -> Vec<FinishedWorker>
            requires begun { (begun.items ≡ []) × (length workers.items ≤ vec_capacity begun) }
            requires worked { (worked.items ≡ []) × (length workers.items ≤ vec_capacity worked) }
            ensures { AreFinished N.limit N.width N.sessions
                (map (λ worker. map plain_op worker.list.items) workers.entry.items)
                (map (λ worker. worker.session.number) workers.entry.items) result.items }
        {
            let mut begun = begun;
            for worker in workers {
                let session = worker.session.number();
                let list = Snapshot::of(&worker.list);
                let promise = WorkerPromise::<N> {
                    session,
                    list: Snapshot::of(&worker.list),
                    of: PhantomData,
                };
                let thread = scope
                    .spawn_with(promise, move || work(rt, alloc, worker, gate))
                    .ok();
                begun.push_reserved(StartedWorker {
                    session,
                    list,
                    thread,
                });
            }
            join_all(rt, alloc, begun, worked)
        },
    ))
}

/// What each worker did, once its thread has ended.
fn join_all<N: StoreName, R: Threads + Wait>(
    rt: &R,
    alloc: Global,
    begun: Vec<StartedWorker<N>>,
    worked: Vec<FinishedWorker>,
) -> Vec<FinishedWorker>
    requires room { (worked.items ≡ []) × (length begun.items ≤ vec_capacity worked) }
    requires sessions { All (λ one. one.session < N.sessions) begun.items }
    ensures { AreFinished N.limit N.width N.sessions (map (λ one. map plain_op one.list.value.items) begun.items)
        (map (λ one. one.session) begun.items) result.items }
{
    let mut worked = worked;
    for one in begun {
        worked.push_reserved(join_one(rt, alloc, one));
    }
    worked
}

/// What a worker did, once its thread has ended.
fn join_one<N: StoreName, R: Threads + Wait>(
    rt: &R,
    alloc: Global,
    begun: StartedWorker<N>,
) -> FinishedWorker
    requires { begun.session < N.sessions }
    ensures finished { IsFinished N.limit N.width N.sessions
        (map plain_op begun.list.value.items) begun.session result }
    ensures start { MatchOption begun.thread (IsSomeAnd result.stopped (λ stop. stop.cause ≡ Cause.Start))
        (λ _. IsStarted result) }
{
    let StartedWorker {
        session,
        list: _,
        thread,
    } = begun;
    match thread {
        Some(thread) => thread.join(rt),
        None => FinishedWorker {
            log: SessionLog {
                session,
                receipts: Items::new(Vec::new(alloc)),
            },
            stopped: Some(Stop {
                step: 0,
                cause: Cause::Start,
            }),
        },
    }
}

/// Takes the operations of a worker's list in order, as long as they are answered.
fn work<'a, N: StoreName, G: Gate, R: Wait>(
    rt: &R,
    alloc: Global,
    worker: Worker<'a, N>,
    gate: &G,
) -> FinishedWorker
    ensures finished { IsFinished N.limit N.width N.sessions (map plain_op worker.entry.list.items)
        worker.entry.session.number result }
    ensures started { IsStarted result }
{
    let Worker {
        mut session,
        place,
        list,
    } = worker;
    let stopped = take_all(rt, alloc, &mut session, place, list, gate);
    // What the session knows of bears out its log.
    let _ = session.log();
    FinishedWorker {
        log: session.close(),
        stopped,
    }
}

/// Takes operations in order, as long as they are answered.
fn take_all<'a, N: StoreName, G: Gate, R: Wait>(
    rt: &R,
    alloc: Global,
    session: &mut Session<'a, N>,
    place: usize,
    list: Vec<Op>,
    gate: &G,
) -> Option<Stop>
    requires { session.old.log ≡ [] }
    ensures work { MatchOption result (ops_told session.new.log ≡ map plain_op list.items)
        (λ stop. (stop.step ≡ length session.new.log)
        × IsStoppedBy N.limit N.width (map plain_op list.items) session.new.log stop.cause) }
    ensures number { session.new.number ≡ session.old.number }
    ensures shown { IfSome result (λ stop. IsStopShown session.new.seen session.new.number stop.cause) }
    ensures started { IfSome result (λ stop. stop.cause ≢ Cause.Start) }
{
    for op in list {
        let step = session.log().len();
        gate.before(rt, place, step);
        let taken = session.perform(rt, alloc, op);
        gate.after(rt, place, step);
        if let Err(fault) = taken {
            return Some(Stop {
                step,
                cause: Cause::Book(fault),
            });
        }
    }
    None
}
