//! The top list of a window while it fills.

use crate::window::Window;
use collect_sources::Messages;
use profile_store::{Answer, BookFault, Query, top_text};
use std::alloc::Global;
use std::sync::{Arc, Wait};
use std::thread;
use std::time::{Clock, Duration};
use store_window::Watcher;

/// How many milliseconds a watcher sleeps before it looks whether the window is over.
const PAUSE: u64 = 50;

/// What is shown of a window, and how often.
#[derive(Drop)]
pub(crate) struct Watch<'a> {
    pub(crate) alloc: Global,
    pub(crate) messages: &'a Messages,
    pub(crate) query: &'a Arc<Query>,
    /// Never, where there is none.
    pub(crate) every: Option<Duration>,
    pub(crate) window: Arc<Window>,
}

impl Watch<'_> {
    /// Sleeps for so long. Whether the window takes something then.
    fn sleep<R: Wait + Clock>(&self, rt: &R, every: Duration) -> bool {
        let pause = Duration::from_millis(PAUSE);
        let mut slept = Duration::ZERO;
        for _ in rt.forever() {
            if self.window.is_over(rt) || !self.window.has_adders() {
                return false;
            }
            if slept >= every {
                break;
            }
            thread::sleep(rt, pause);
            slept = slept.saturating_add(pause);
        }
        true
    }
}

impl Watcher for Watch<'_> {
    fn next_query<R: Wait + Clock>(&self, rt: &R) -> Option<&Arc<Query>> {
        if self.sleep(rt, self.every?) {
            return Some(self.query);
        }
        None
    }

    fn show(&self, answer: Result<&Answer, BookFault>) {
        match answer {
            Ok(Answer::Top(top)) => match top_text(self.alloc, top) {
                Ok(text) => self.messages.show(text.as_slice()),
                Err(fault) => self.messages.say(&fault),
            },
            Ok(_) => {}
            Err(fault) => self.messages.say(&fault),
        }
    }
}
