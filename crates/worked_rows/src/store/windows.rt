//! Windows that one session takes in a thread while another adds: `windows 100 main;a 1`.

use crate::store::gates::{add_one, come};
use crate::store::sessions::{Deed, add_often};
use crate::store::stores::Room;
use library_steps::{Made, Wrong, batch_of};
use profile_store::{Batch, Session, StoreName};
use std::alloc::Global;
use std::sync::atomic::AtomicU64;
use std::sync::{Arc, Wait};
use std::thread;
use std::thread::Threads;

/// The first session adds rows in one thread, and the second takes windows in another, each so often. It tells what all
/// windows and what is left weigh, which the second takes then.
pub(crate) fn run<N: StoreName, R: Threads + Wait + Sync>(
    room: &mut Room<'_, N, R>,
    deed: Deed,
    made: &mut Made,
) {
    let times = made.number(deed.words.word(0));
    if let Some(batch) = batch_of(deed.words.rest(1), deed.input, made) {
        weigh(room.rt, room.sessions.as_mut_slice(), &batch, times, made);
        drop(batch);
    }
}

fn weigh<N: StoreName, R: Threads + Wait + Sync>(
    rt: &R,
    sessions: &mut [Session<'_, N>],
    batch: &Arc<Batch>,
    times: u64,
    made: &mut Made,
) {
    let Some((first, others)) = sessions.split_first_mut() else {
        return made.fail(Wrong::Missing);
    };
    let Some(second) = others.first_mut() else {
        return made.fail(Wrong::Missing);
    };
    let weight = add_and_take(rt, made.alloc(), first, second, batch, times);
    made.say(&format_args!("weight {weight}"));
}

/// Two threads, which begin together. It gives what the windows weigh.
fn add_and_take<N: StoreName, R: Threads + Wait + Sync>(
    rt: &R,
    alloc: Global,
    first: &mut Session<'_, N>,
    second: &mut Session<'_, N>,
    batch: &Arc<Batch>,
    times: u64,
) -> u64 {
    let there = AtomicU64::new(0);
    let (_, taken) = thread::join(
        rt,
        || {
            meet(&there);
            add_often(rt, alloc, first, batch, times)
        },
        || {
            meet(&there);
            take_often(rt, alloc, second, times)
        },
    );
    taken.saturating_add(take_often(rt, alloc, second, 1))
}

/// A thread comes, and waits for the other.
fn meet(there: &AtomicU64) {
    add_one(there);
    let _ = come(there, 2);
}

/// A session that takes so many windows. It gives what these weigh.
fn take_often<N: StoreName, R: Wait>(
    rt: &R,
    alloc: Global,
    session: &mut Session<'_, N>,
    times: u64,
) -> u64 {
    let mut weight = 0_u64;
    for _ in 0..times {
        if let Ok(window) = session.take(rt, alloc) {
            weight = weight.saturating_add(window.tree.total().values()[0]);
            drop(window);
        }
    }
    weight
}
