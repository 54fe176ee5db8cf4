//! A gate that counts the calls of workers, and holds some of them.

use library_steps::Made;
use profile_store::Gate;
use std::sync::atomic::{AtomicU64, Ordering};
use std::sync::{Mutex, Wait};
use std::thread;

/// Whether so many come, within some turns.
pub(crate) fn come(there: &AtomicU64, count: u64) -> bool {
    for _ in 0..100_000_000 {
        if there.load(Ordering::SeqCst) >= count {
            return true;
        }
        thread::yield_now();
    }
    false
}

/// Adds one to a count.
pub(crate) fn add_one(count: &AtomicU64) {
    let _ = count.fetch_add(1, Ordering::SeqCst);
}

/// Counts the calls of workers. Each calls before its first step, after it, before its second step, and so on. A call
/// is wrong where it isn't the worker's next, or is held in vain.
#[derive(Drop)]
pub(crate) struct Counting {
    /// Which calls are held, each as three numbers: a worker, its call, and how many calls there have to be.
    held: Vec<u64>,
    /// How often each worker called.
    calls: Mutex<Vec<u64>>,
    /// How many calls there are, of all workers and of who lets them go.
    there: AtomicU64,
    /// How many calls went on.
    gone: AtomicU64,
    wrong: AtomicU64,
}

impl Counting {
    /// No worker called yet.
    pub(crate) fn new(held: Vec<u64>, calls: Vec<u64>) -> Counting {
        Counting {
            held,
            calls: Mutex::new(calls),
            there: AtomicU64::new(0),
            gone: AtomicU64::new(0),
            wrong: AtomicU64::new(0),
        }
    }

    /// A worker calls, and it should have called so often before.
    fn call<R: Wait>(&self, rt: &R, worker: usize, before: u64) {
        add_one(&self.there);
        let is_next = self.count(rt, worker, before);
        if !come(&self.there, self.until(worker as u64, before)) || !is_next {
            add_one(&self.wrong);
        }
        add_one(&self.gone);
    }

    /// Counts a worker's call. It gives whether it is the next.
    fn count<R: Wait>(&self, rt: &R, worker: usize, before: u64) -> bool {
        let mut calls = self.calls.lock(rt);
        match calls.get_mut(worker) {
            Some(calls) if *calls == before => {
                *calls = before.wrapping_add(1);
                true
            }
            _ => false,
        }
    }

    /// How many calls there have to be before this one goes on.
    fn until(&self, worker: u64, call: u64) -> u64 {
        let mut until = 0;
        for held in self.held.as_slice().chunks(3) {
            if held.starts_with(&[worker, call]) {
                until = held.last().copied().unwrap_or(0);
            }
        }
        until
    }

    /// Waits for a first call, and adds whether it came.
    pub(crate) fn wait(&self, made: &mut Made) {
        let is_there = come(&self.there, 1);
        made.say(&if is_there { "held" } else { "nobody came" });
    }

    /// Adds how many calls went on so far, and calls.
    pub(crate) fn let_go(&self, made: &mut Made) {
        let gone = self.gone.load(Ordering::SeqCst);
        add_one(&self.there);
        made.say(&format_args!("{gone} went on"));
    }

    /// Adds how often each worker called.
    pub(crate) fn tell<R: Wait>(&self, rt: &R, made: &mut Made) {
        let wrong = self.wrong.load(Ordering::SeqCst);
        let calls = self.calls.lock(rt);
        made.say(&format_args!("calls {:?}, {wrong} wrong", calls.as_slice()));
    }
}

impl Gate for Counting {
    fn before<R: Wait>(&self, rt: &R, worker: usize, step: usize) {
        self.call(rt, worker, (step as u64).wrapping_mul(2));
    }

    fn after<R: Wait>(&self, rt: &R, worker: usize, step: usize) {
        self.call(rt, worker, (step as u64).wrapping_mul(2).wrapping_add(1));
    }
}
