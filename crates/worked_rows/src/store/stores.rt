//! A store: `store limit 10 sessions 2 width 1`, and a step for each operation of a session, or for threads.

ghost use Rattle.std.specs.Prelude.{◌≡◌};

use crate::store::sessions::{Deed, hold, take, tell_number};
use crate::store::{walks, windows, workers};
use library_steps::{Checker, Made, Script, Step, Words, Wrong, next_step, run_closed, width_of};
use profile_store::{Blank, Hashing, MakeFault, Session, SessionLog, Store, StoreName, Told};
use std::marker::Brand;
use std::sync::Wait;
use std::thread::Threads;

/// A store, its sessions, what they told of changes, and the logs of workers.
#[derive(Drop)]
pub(crate) struct Room<'a, N: StoreName, R> {
    pub(crate) rt: &'a R,
    pub(crate) store: &'a Store<N>,
    pub(crate) sessions: Vec<Session<'a, N>>,
    told: Vec<Told<N>>,
    pub(crate) logs: Vec<SessionLog>,
}

/// Opens a store, and runs the steps of its sessions.
pub fn run_scene<R: Threads + Wait + Sync>(
    rt: &R,
    checker: &mut Checker,
    script: &mut Script,
    step: &Step,
) {
    match blank_of(step.words, &mut checker.made) {
        Ok(blank) => run_store::<Brand, R>(rt, checker, script, step, blank),
        Err(fault) => {
            checker.made.refuse(&fault);
            checker.settle(step);
        }
    }
}

/// An empty store. With `hashing 7` it hashes names from that start.
fn blank_of(words: Words, made: &mut Made) -> Result<Blank, MakeFault> {
    let limit = made.number_after(words, "limit", 10);
    let sessions = made.number_after(words, "sessions", 1);
    let width = width_of(words, made);
    let hashing = match words.after("hashing") {
        Some(key) => Hashing::of_key(made.number(key)),
        None => Hashing::fixed(),
    };
    Blank::make_with(made.alloc(), hashing, limit, sessions, width)
}

fn run_store<N: StoreName, R: Threads + Wait + Sync>(
    rt: &R,
    checker: &mut Checker,
    script: &mut Script,
    step: &Step,
    blank: Blank,
)
    requires { blank
        ≡ record { limit = N.limit; sessions = N.sessions; width = N.width; history = N.history } }
{
    let store = Store::<N>::start(blank);
    let logs = run_sessions(rt, checker, script, step, &store);
    let journal = store.close(rt);
    run_closed(checker, script, &journal, logs);
    drop(journal);
}

/// Opens the sessions, and gives their logs.
fn run_sessions<N: StoreName, R: Threads + Wait + Sync>(
    rt: &R,
    checker: &mut Checker,
    script: &mut Script,
    step: &Step,
    store: &Store<N>,
) -> Vec<SessionLog> {
    let mut room = Room {
        rt,
        store,
        sessions: open_sessions(rt, store, step.words, &mut checker.made),
        told: Vec::new(checker.alloc),
        logs: Vec::new(checker.alloc),
    };
    checker.settle(step);
    run_steps(&mut room, checker, script);
    logs_of(room, &mut checker.made)
}

/// The sessions of a store, fewer than there are with `open 1`.
fn open_sessions<'a, N: StoreName, R: Wait>(
    rt: &R,
    store: &'a Store<N>,
    words: Words,
    made: &mut Made,
) -> Vec<Session<'a, N>> {
    let count: u64 = made.number_after(words, "sessions", 1);
    let count = made.number_after(words, "open", count);
    let mut sessions = Vec::new(made.alloc());
    for _ in 0..count {
        if let Some(session) = made.done(store.session(rt, made.alloc())) {
            made.keep(&mut sessions, session);
        }
    }
    sessions
}

/// The logs of workers, and those of sessions, which end.
fn logs_of<N: StoreName, R>(room: Room<N, R>, made: &mut Made) -> Vec<SessionLog> {
    let Room {
        sessions,
        mut logs,
        ..
    } = room;
    for session in sessions {
        made.keep(&mut logs, session.close());
    }
    logs
}

fn run_steps<N: StoreName, R: Threads + Wait + Sync>(
    room: &mut Room<'_, N, R>,
    checker: &mut Checker,
    script: &mut Script,
) {
    for _ in 0..script.most_steps() {
        let Some(step) = next_step(checker, script) else {
            return;
        };
        run_step(room, step.words, checker.input.bytes(), &mut checker.made);
        checker.settle(&step);
    }
}

fn run_step<N: StoreName, R: Threads + Wait + Sync>(
    room: &mut Room<'_, N, R>,
    words: Words,
    input: &[u8],
    made: &mut Made,
) {
    let deed = Deed {
        words: words.rest(1),
        input,
    };
    match words.word(0) {
        "workers" => workers::run_lists(room, deed, made),
        "held" => workers::run_held(room, deed, made),
        "ungated" => workers::run_ungated(room, deed, made),
        "windows" => windows::run(room, deed, made),
        "threads" => walks::run(room, deed, made),
        who => room.take(who, deed, made),
    }
}

impl<N: StoreName, R: Wait> Room<'_, N, R> {
    /// `0 add a 1`: an operation of session 0. With `each` all sessions take it in turn, and with `once` the next
    /// session of the store, which then ends.
    fn take(&mut self, who: &str, deed: Deed, made: &mut Made) {
        match who {
            "each" => self.take_each(deed, made),
            "once" => self.take_once(deed, made),
            "hold" => self.hold(deed, made),
            number => self.take_one(made.number(number), deed, made),
        }
    }

    /// Takes the steps that the lines of a text spell, none of which has an input.
    pub(crate) fn take_lines(&mut self, text: &str, made: &mut Made) {
        for text in text.lines() {
            let words = Words { text };
            let deed = Deed {
                words: words.rest(1),
                input: b"",
            };
            self.take(words.word(0), deed, made);
        }
    }

    fn take_each(&mut self, deed: Deed, made: &mut Made) {
        for place in 0..self.sessions.len() {
            self.take_one(place, deed, made);
        }
    }

    fn take_one(&mut self, place: usize, deed: Deed, made: &mut Made) {
        match self.sessions.get_mut(place) {
            Some(session) => take(self.rt, session, &mut self.told, deed, made),
            None => made.fail(Wrong::Missing),
        }
    }

    fn take_once(&mut self, deed: Deed, made: &mut Made) {
        match self.store.session(self.rt, made.alloc()) {
            Ok(mut session) => {
                tell_number(&session, made);
                take(self.rt, &mut session, &mut self.told, deed, made);
                drop(session);
            }
            Err(fault) => made.refuse(&fault),
        }
    }

    /// `hold 300 ask folded`: the first session's answer, while the second adds the rows of the input so often.
    fn hold(&mut self, deed: Deed, made: &mut Made) {
        let Some((first, others)) = self.sessions.split_first_mut() else {
            return made.fail(Wrong::Missing);
        };
        match others.first_mut() {
            Some(second) => hold(self.rt, first, second, deed, made),
            None => made.fail(Wrong::Missing),
        }
    }
}
