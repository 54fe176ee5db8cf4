//! Threads that fill a store.

ghost use Rattle.std.specs.Thread.{IsSend, IsSync};
ghost use Rattle.std.specs.Prelude.{◌≡◌, ◌++◌, ◌∷◌, [], ℕ, IsTrue, MatchBool, ⊤};
ghost use Rattle.profile_store.specs.Books.{change_told};
ghost use Rattle.profile_store.specs.Operations.{add};
ghost use Rattle.profile_store.specs.Values.{BatchState};

use crate::closed::ClosedWindow;
use crate::source::{Slot, Source, Watcher};
use profile_store::{
    AuditFault, Blank, Hashing, MakeFault, NoMemory, Session, SessionFault, SessionLog, Store,
    StoreName, Width,
};
use std::alloc::Global;
use std::marker::Brand;
use std::sync::{Mutex, MutexGuard, Wait};
use std::thread;
use std::thread::{Scope, Threads};
use std::time::Clock;
use thiserror::Error;

/// Why a window isn't made, why not all sources take part in it, or why its tree can't be believed.
#[derive(Clone, Copy, Debug, PartialEq, Eq, Error)]
pub enum WindowFault {
    /// The store isn't made.
    #[error("{0}")]
    Make(MakeFault),
    /// A source got no session.
    #[error("{0}")]
    Session(SessionFault),
    /// A source got no thread.
    #[error("G3 Start")]
    Start,
    /// The audit doesn't accept the logs.
    #[error("{0}")]
    Audit(AuditFault),
    /// The store was reset.
    #[error("the store was reset")]
    Reset,
    /// Memory ran out.
    #[error("NoMemory")]
    NoMemory,
}

impl From<MakeFault> for WindowFault {
    fn from(fault: MakeFault) -> WindowFault {
        WindowFault::Make(fault)
    }
}

impl From<SessionFault> for WindowFault {
    fn from(fault: SessionFault) -> WindowFault {
        WindowFault::Session(fault)
    }
}

impl From<AuditFault> for WindowFault {
    fn from(fault: AuditFault) -> WindowFault {
        WindowFault::Audit(fault)
    }
}

impl From<NoMemory> for WindowFault {
    fn from(_error: NoMemory) -> WindowFault {
        WindowFault::NoMemory
    }
}

/// Makes a store, lets each source fill it in a thread of its own while the watcher asks, and closes it once all
/// sources have left. `hashing` says how names are hashed: draw it from [`Hashing::random`] where strangers choose
/// them. There are at most 63 sources.
///
/// # Errors
///
/// `Make`; `NoMemory`. Nothing was taken of a source then.
pub fn fill_window<S: Source + Drop + Send, W: Watcher, R: Threads + Wait + Clock + Sync>(
    rt: &R,
    alloc: Global,
    hashing: Hashing,
    slots: &[Mutex<Slot<S>>],
    watcher: &W,
) -> Result<ClosedWindow, WindowFault> {
    let logs = Vec::with_capacity(alloc, slots.len()).map_err(|_| WindowFault::NoMemory)?;
    let sessions = u32::try_from(slots.len().saturating_add(1)).unwrap_or(u32::MAX);
    let blank = Blank::make_with(alloc, hashing, u32::MAX, sessions, Width::one())?;
    Ok(fill_blank::<Brand, S, W, R>(rt, alloc, blank, slots, watcher, logs))
}

/// Fills the store of a blank.
fn fill_blank<N: StoreName, S: Source + Drop + Send, W: Watcher, R: Threads + Wait + Clock + Sync>(
    rt: &R,
    alloc: Global,
    blank: Blank,
    slots: &[Mutex<Slot<S>>],
    watcher: &W,
    logs: Vec<SessionLog>,
) -> ClosedWindow
    requires { blank
        ≡ record { limit = N.limit; sessions = N.sessions; width = N.width; history = N.history } }
{
    let store = Store::<N>::start(blank);
    let filled = fill_store(rt, alloc, &store, slots, watcher);
    let mut closed = ClosedWindow {
        journal: store.close(rt),
        logs,
        missing: filled.err(),
    };
    for slot in slots {
        take_log(rt, slot, &mut closed.logs);
    }
    closed
}

/// Takes what a source's session was told.
fn take_log<S: Source + Drop, R: Wait>(rt: &R, slot: &Mutex<Slot<S>>, logs: &mut Vec<SessionLog>) {
    let mut slot = slot.lock(rt);
    if let Some(log) = slot.log.take() {
        // There is room for the log of each source.
        let _ = logs.push(log);
    }
    MutexGuard::unlock(slot);
}

/// Runs a thread for each source, and watches meanwhile.
fn fill_store<N: StoreName, S: Source + Drop + Send, W: Watcher, R: Threads + Wait + Clock + Sync>(
    rt: &R,
    alloc: Global,
    store: &Store<N>,
    slots: &[Mutex<Slot<S>>],
    watcher: &W,
) -> Result<(), WindowFault> {
    let watching = store.session(rt, alloc)?;
    thread::scope(
        thread::scope_env(),
        rt,
        |scope| -> Result<(), WindowFault>
            requires { IsSend N.row × IsSync N.row × IsSend S.row × IsSync R.row }
        { fill_slots(scope, rt, alloc, store, slots, watching, watcher) },
    )
}

/// Runs a thread for each source, and watches meanwhile. Each thread is gone when it returns, and not only done: the C
/// library keeps memory for a thread, and gives it to a new one only then.
fn fill_slots<
    's,
    N: StoreName,
    S: Source + Drop + Send,
    W: Watcher,
    R: Threads + Wait + Clock + Sync,
    E,
>(
    scope: &Scope<'s, E>,
    rt: &'s R,
    alloc: Global,
    store: &'s Store<N>,
    slots: &'s [Mutex<Slot<S>>],
    watching: Session<'s, N>,
    watcher: &W,
) -> Result<(), WindowFault>
    requires { IsSend N.row × IsSync N.row × IsSend S.row × IsSync R.row }
{
    let Some((slot, rest)) = slots.split_first() else {
        watch(rt, alloc, watching, watcher);
        return Ok(());
    };
    let session = store.session(rt, alloc)?;
    match scope.spawn(move || fill_from(rt, alloc, slot, session)) {
        Ok(thread) => {
            let filled = fill_slots(scope, rt, alloc, store, rest, watching, watcher);
            thread.join(rt);
            filled
        }
        Err(_) => Err(WindowFault::Start),
    }
}

/// Adds what a source gives. Nobody else has it meanwhile.
fn fill_from<N: StoreName, S: Source + Drop, R: Wait + Clock>(
    rt: &R,
    alloc: Global,
    slot: &Mutex<Slot<S>>,
    session: Session<'_, N>,
) {
    let mut slot = slot.lock(rt);
    let mut session = session;
    for _ in rt.forever() {
        if !add_next(rt, alloc, &mut slot.source, &mut session) {
            break;
        }
    }
    slot.log = Some(session.close());
    slot.source.leave();
    MutexGuard::unlock(slot);
}

/// Adds a source's next batch, or gives it back where it is refused. Whether more may come.
fn add_next<N: StoreName, S: Source, R: Wait + Clock>(
    rt: &R,
    alloc: Global,
    source: &mut S,
    session: &mut Session<'_, N>,
) -> bool
    ensures once { IsTrue result → (batch : BatchState) × (place : ℕ)
        × (session.new.log ≡ session.old.log ++ change_told (add batch) place ∷ []) }
    ensures refused { MatchBool result ⊤ (session.new.log ≡ session.old.log) }
{
    let Some(batch) = source.next_batch(rt) else {
        return false;
    };
    match session.add(rt, alloc, batch) {
        Ok(_) => true,
        Err(refused) => {
            source.take_back(rt, refused.back, refused.fault);
            false
        }
    }
}

/// Asks what the watcher wants to know.
fn watch<N: StoreName, W: Watcher, R: Wait + Clock>(
    rt: &R,
    alloc: Global,
    session: Session<'_, N>,
    watcher: &W,
) {
    let mut session = session;
    for _ in rt.forever() {
        let Some(query) = watcher.next_query(rt) else {
            break;
        };
        watcher.show(session.ask(alloc, query));
    }
    let _ = session.close();
}
