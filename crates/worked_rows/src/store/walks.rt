//! What sessions do in threads of their own, beside others: `threads 40`. They make changes, ask, and hear of other
//! changes.

use crate::store::gates::{add_one, come};
use crate::store::sessions::{Deed, run_op};
use crate::store::stores::Room;
use library_steps::{Made, Words, batch_of, query_of};
use profile_store::{Batch, Op, Placed, Query, Session, SessionLog, StoreName};
use std::alloc::Global;
use std::sync::atomic::{AtomicU64, Ordering};
use std::sync::{Arc, Mutex, Wait};
use std::thread::Threads;
use std::{mem, thread};

/// The first so many sessions tell others of their changes, and hear of theirs.
const TELLING: u32 = 4;

/// Runs a thread for each session, in which it takes so many steps. It adds the first row of the input, the first two
/// and so on, and asks what the lines with `ask` spell. It tells how often sessions were told what is wrong, and how
/// often they heard.
pub(crate) fn run<N: StoreName, R: Threads + Wait + Sync>(
    room: &mut Room<'_, N, R>,
    deed: Deed,
    made: &mut Made,
) {
    let work = work_of(made.text_of(deed.input), made);
    let steps = made.number(deed.words.word(0));
    let sessions = mem::replace(&mut room.sessions, Vec::new(made.alloc()));
    let bench = Bench::new(made.alloc(), &work, sessions.len() as u64, steps);
    start_all(room.rt, sessions, &bench, made);
    bench.tell(made);
    keep_all(bench.end(), &mut room.logs, made);
    drop(work);
}

/// A thread for each session.
fn start_all<N: StoreName, R: Threads + Wait + Sync>(
    rt: &R,
    sessions: Vec<Session<'_, N>>,
    bench: &Bench<N>,
    made: &Made,
) {
    let alloc = made.alloc();
    thread::scope(thread::scope_env(), rt, |scope| {
        for session in sessions {
            let _ = scope.spawn(move || bench.walk(rt, alloc, session));
        }
    });
}

fn keep_all(all: Vec<SessionLog>, logs: &mut Vec<SessionLog>, made: &mut Made) {
    for log in all {
        made.keep(logs, log);
    }
}

/// What sessions add and ask.
#[derive(Drop)]
struct Work {
    batches: Vec<Arc<Batch>>,
    queries: Vec<Arc<Query>>,
}

fn work_of(text: &str, made: &mut Made) -> Work {
    let mut rows = Made::new(made.alloc());
    let mut work = Work {
        batches: Vec::new(made.alloc()),
        queries: Vec::new(made.alloc()),
    };
    for line in text.lines() {
        work.add_line(line, &mut rows, made);
    }
    made.fail_as(&rows);
    drop(rows);
    work
}

impl Work {
    fn add_line(&mut self, text: &str, rows: &mut Made, made: &mut Made) {
        if text.starts_with("ask") {
            if let Some(query) = query_of(Words { text }, made) {
                made.keep(&mut self.queries, query);
            }
            return;
        }
        rows.say(&text);
        if let Some(batch) = batch_of(Words { text: "" }, rows.bytes(), made) {
            made.keep(&mut self.batches, batch);
        }
    }

    /// Of each four sessions one adds, one resets now and then, one asks, and one adds and asks.
    fn op_of(&self, session: u32, step: usize) -> Option<Op> {
        match (session % 4, step % 8) {
            (1, 7) => Some(Op::Reset),
            (2, _) | (3, 1 | 3 | 5 | 7) => {
                let query = Arc::try_clone(self.queries.get(step % 10)?);
                Some(Op::Ask(query.ok()?))
            }
            _ => {
                let batch = Arc::try_clone(self.batches.get(step % 5)?);
                Some(Op::Add(batch.ok()?))
            }
        }
    }
}

/// What sessions in threads have in common.
#[derive(Drop)]
struct Bench<'a, N: StoreName> {
    work: &'a Work,
    /// How many sessions there are.
    sessions: u64,
    /// How many steps each takes.
    steps: usize,
    /// How many sessions took their first step.
    begun: AtomicU64,
    /// What one of them was last told of a change.
    last: Mutex<Option<Placed<N>>>,
    /// The logs of the sessions that took all their steps.
    done: Mutex<Vec<SessionLog>>,
    /// How often sessions heard of a change.
    heard: AtomicU64,
    /// How often they were refused, or told less than they knew.
    wrong: AtomicU64,
}

impl<'a, N: StoreName> Bench<'a, N> {
    /// Nobody took a step yet.
    fn new(alloc: Global, work: &'a Work, sessions: u64, steps: usize) -> Bench<'a, N> {
        Bench {
            work,
            sessions,
            steps,
            begun: AtomicU64::new(0),
            last: Mutex::new(None),
            done: Mutex::new(Vec::new(alloc)),
            heard: AtomicU64::new(0),
            wrong: AtomicU64::new(0),
        }
    }

    fn expect(&self, is_right: bool) {
        if !is_right {
            add_one(&self.wrong);
        }
    }

    /// Takes a session's steps. Where there is no memory for its log, that is missing in the audit.
    fn walk<R: Wait>(&self, rt: &R, alloc: Global, session: Session<'_, N>) {
        let mut session = session;
        self.step_all(rt, alloc, &mut session);
        let _ = self.done.lock(rt).push(session.close());
    }

    /// After its first step, a session waits for the first of all others.
    fn step_all<R: Wait>(&self, rt: &R, alloc: Global, session: &mut Session<'_, N>) {
        let mut known = self.step(rt, alloc, session, 0, 0);
        add_one(&self.begun);
        self.expect(come(&self.begun, self.sessions));
        for step in 1..self.steps {
            known = self.hear(rt, session, known);
            known = self.step(rt, alloc, session, step, known);
        }
    }

    /// A session hears of what one of them was last told. It gives how many changes it knows of.
    fn hear<R: Wait>(&self, rt: &R, session: &mut Session<'_, N>, known: u64) -> u64 {
        if session.number() >= TELLING {
            return known;
        }
        let last = self.last.lock(rt);
        match &*last {
            Some(placed) => {
                session.hear(&placed.told);
                add_one(&self.heard);
                known.max(placed.place.saturating_add(1))
            }
            None => known,
        }
    }

    /// A session takes a step, and is told no less than it knew. It gives how many changes it knows of.
    fn step<R: Wait>(
        &self,
        rt: &R,
        alloc: Global,
        session: &mut Session<'_, N>,
        step: usize,
        known: u64,
    ) -> u64 {
        let placed = match self.work.op_of(session.number(), step) {
            Some(op) => run_op(rt, alloc, session, op),
            None => Ok(None),
        };
        self.expect(placed.is_ok());
        let at = session.log().last().map_or(0, |receipt| receipt.at);
        self.expect(known <= at);
        match placed {
            Ok(Some(placed)) => {
                self.keep(rt, session.number(), placed);
                at.saturating_add(1)
            }
            _ => at,
        }
    }

    /// Others may be told of a change.
    fn keep<R: Wait>(&self, rt: &R, session: u32, placed: Placed<N>) {
        if session < TELLING {
            *self.last.lock(rt) = Some(placed);
        }
    }

    /// The logs of the sessions.
    fn end(self) -> Vec<SessionLog> {
        self.done.into_inner()
    }

    /// Adds how often sessions were told what is wrong, and how often they heard.
    fn tell(&self, made: &mut Made) {
        let wrong = self.wrong.load(Ordering::SeqCst);
        let heard = self.heard.load(Ordering::SeqCst);
        made.say(&format_args!("{wrong} wrong, {heard} heard"));
    }
}
