//! Workers of a store, each with a list of operations: `workers`, and a line for each.

use crate::store::gates::Counting;
use crate::store::sessions::Deed;
use crate::store::stores::Room;
use library_steps::{Made, Words, Wrong, first_line, numbers_of, op_of};
use profile_store::{FinishedWorker, Op, StoreName, Ungated, WorkersFault, run_workers};
use std::sync::Wait;
use std::thread;
use std::thread::Threads;

/// Runs a worker for each line of the input, whose operations are parted by commas. It tells how often each called.
/// With `0.1 till 3` worker 0 is held in its second call till there are three calls.
pub(crate) fn run_lists<N: StoreName, R: Threads + Wait + Sync>(
    room: &mut Room<'_, N, R>,
    deed: Deed,
    made: &mut Made,
) {
    let lists = lists_of(made.text_of(deed.input), made);
    let gate = gate_of(deed, lists.len(), made);
    let all = run_workers(room.rt, made.alloc(), room.store, lists, &gate);
    keep_work(room, all, made);
    gate.tell(room.rt, made);
    drop(gate);
}

/// The same with no gate.
pub(crate) fn run_ungated<N: StoreName, R: Threads + Wait + Sync>(
    room: &mut Room<'_, N, R>,
    deed: Deed,
    made: &mut Made,
) {
    let lists = lists_of(made.text_of(deed.input), made);
    let all = run_workers(room.rt, made.alloc(), room.store, lists, &Ungated);
    keep_work(room, all, made);
}

/// Runs a worker with the operations of the input's first line. Once it is held, sessions take the steps of the other
/// lines.
pub(crate) fn run_held<N: StoreName, R: Threads + Wait + Sync>(
    room: &mut Room<'_, N, R>,
    deed: Deed,
    made: &mut Made,
) {
    let (list, steps) = first_line(made.text_of(deed.input));
    let lists = lists_of(list, made);
    let gate = gate_of(deed, lists.len(), made);
    let (rt, alloc, store) = (room.rt, made.alloc(), room.store);
    let all = thread::scope(thread::scope_env(), rt, |scope| {
        let worker = scope.spawn(|| run_workers(rt, alloc, store, lists, &gate));
        gate.wait(made);
        room.take_lines(steps, made);
        gate.let_go(made);
        worker.ok().map(|worker| worker.join(rt))
    });
    match all {
        Some(all) => keep_work(room, all, made),
        None => made.fail(Wrong::Missing),
    }
    gate.tell(rt, made);
    drop(gate);
}

/// A gate for so many workers.
fn gate_of(deed: Deed, workers: usize, made: &mut Made) -> Counting {
    let mut calls = Vec::new(made.alloc());
    for _ in 0..workers {
        made.keep(&mut calls, 0);
    }
    Counting::new(numbers_of(deed.words.text, made), calls)
}

/// The lists of operations in the lines of a text.
fn lists_of(text: &str, made: &mut Made) -> Vec<Vec<Op>> {
    let mut lists = Vec::new(made.alloc());
    for line in text.lines() {
        let list = list_of(line, made);
        made.keep(&mut lists, list);
    }
    lists
}

fn list_of(line: &str, made: &mut Made) -> Vec<Op> {
    let mut list = Vec::new(made.alloc());
    for text in line.split(',') {
        if text.is_empty() {
            continue;
        }
        if let Some(op) = op_of(Words { text: text.trim() }, b"", made) {
            made.keep(&mut list, op);
        }
    }
    list
}

/// Adds how many receipts each worker has and why it stopped, and keeps the logs; or adds why no worker started.
fn keep_work<N: StoreName, R>(
    room: &mut Room<'_, N, R>,
    all: Result<Vec<FinishedWorker>, WorkersFault>,
    made: &mut Made,
) {
    match all {
        Ok(all) => {
            for one in all {
                tell_worker(&one, made);
                made.keep(&mut room.logs, one.log);
            }
        }
        Err(fault) => made.refuse(&fault),
    }
}

fn tell_worker(one: &FinishedWorker, made: &mut Made) {
    let (session, receipts) = (one.log.session, one.log.receipts.as_slice().len());
    made.say(&format_args!("session {session}: {receipts} receipts"));
    if let Some(stop) = one.stopped {
        made.refuse(&stop);
    }
}
