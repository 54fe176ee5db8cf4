//! How `live` stores the rows of a batch, and what it writes of them.

ghost use Rattle.std.specs.Prelude.{◌≡◌, ◌<◌, ◌≤◌};
ghost use Rattle.flame_words.specs.LiveOptions.{most_workers, options_of};

use op_book::MAX_SESSIONS;
use std::marker::Model;

/// How the rows are stored, and what is written.
#[derive(Clone, Copy, Debug, PartialEq, Eq)]
pub struct LiveOptions {
    /// How many workers add the rows.
    sessions: u32,
    /// Whether the report of each value is written, and not that of the first alone.
    all: bool,
    /// Whether a session before them adds the whole batch, asks for its total and resets the store.
    warm: bool,
}

impl Model for LiveOptions {
    ghost use Rattle.std.specs.Prelude.{◌<◌, ◌≤◌};
    ghost use Rattle.flame_words.specs.LiveOptions.{PlainOptions, most_workers};

    ghost Value = { PlainOptions };

    ghost view = { λ o. record { sessions = o.sessions; all = o.all; warm = o.warm } };

    ghost invariant = { λ o. (0 < o.sessions) × (o.sessions ≤ most_workers o.warm) };

    ghost inverse = { λ p. record { sessions = p.sessions; all = p.all; warm = p.warm } };
}

impl LiveOptions {
    /// So many workers, whether the report of each value is written, and whether a session before the workers adds the
    /// whole batch and resets the store.
    ///
    /// Nothing exactly where there are no workers or more than 64, or more than 63 beside that session.
    pub fn new(sessions: u32, all: bool, warm: bool) -> Option<LiveOptions>
        ensures { result ≡ options_of sessions all warm }
    {
        if sessions == 0 || sessions > most_workers(warm) {
            return None;
        }
        Some(LiveOptions {
            sessions,
            all,
            warm,
        })
    }

    /// How many workers add the rows.
    pub fn sessions(&self) -> u32
        ensures sessions { result ≡ self.now.sessions }
        ensures workers { (0 < result) × (result ≤ most_workers self.now.warm) }
    {
        self.sessions
    }

    /// Whether the report of each value is written, and not that of the first alone.
    pub fn all(&self) -> bool
        ensures { result ≡ self.now.all }
    {
        self.all
    }

    /// Whether a session before the workers adds the whole batch, asks for its total and resets the store.
    pub fn warm(&self) -> bool
        ensures { result ≡ self.now.warm }
    {
        self.warm
    }
}

// How many workers there can be beside a warm start, or without one.
fn most_workers(warm: bool) -> u32
    ensures { result ≡ most_workers warm }
{
    if warm { MAX_SESSIONS - 1 } else { MAX_SESSIONS }
}
