//! The store: a book behind one lock, and versions of its tree.

ghost use Rattle.std.specs.Prelude.{◌≡◌, ◌<◌, [], IfOk};
ghost use Rattle.live_store.specs.Stores.{IsJournalOf};

use crate::blank::Blank;
use crate::fault::SessionFault;
use crate::locked_book::LockedBook;
use crate::session::Session;
use op_book::Journal;
use profile_rows::Width;
use shown_versions::{Front, StoreName};
use std::alloc::Global;
use std::sync::{Mutex, MutexGuard, Wait};

/// A profile store that many threads use, each through a session of its own. Whenever its lock is free, its tree is the
/// aggregate of the additions in its journal that count, each reply is what the plain profile gives after the changes
/// before, and the version that is shown is of all changes of the journal.
///
/// It isn't `Drop`: [`close`](Store::close) ends it.
pub struct Store<N: StoreName> {
    book: Mutex<LockedBook<N>>,
    origin: Front<N>,
    width: Width,
    ghost fresh: { origin ≡ [] },
    ghost wide: { width ≡ N.width },
}

impl<N: StoreName> Store<N> {
    /// The store of a blank.
    pub fn start(blank: Blank) -> Store<N>
        requires { blank
            ≡ record { limit = N.limit; sessions = N.sessions; width = N.width; history = N.history } }
    {
        let width = blank.width;
        let (book, origin) = LockedBook::of(blank);
        Store {
            book: Mutex::new(book),
            origin,
            width,
        }
    }

    /// The next session, with an empty log, which knows of no change. Sessions are numbered from 0.
    ///
    /// # Errors
    ///
    /// `AllGiven`; `Place` where no place for a reader is free; `NoMemory`. A refusal uses up no number.
    pub fn session<R: Wait>(&self, rt: &R, alloc: Global) -> Result<Session<'_, N>, SessionFault>
        ensures { IfOk result
            (λ session. (session.number < N.sessions) × (session.log ≡ []) × (session.seen ≡ [])) }
    {
        let mut book = self.lock(rt);
        let given = book.give(rt, alloc);
        MutexGuard::unlock(book);
        match given {
            Ok((log, reader)) => Ok(Session::new(self, log, self.origin.again(), reader)),
            Err(fault) => Err(fault),
        }
    }

    /// The journal of the store, once all its sessions have ended, and the end of its versions.
    pub fn close<R: Wait>(self, rt: &R) -> Journal
        ensures { IsJournalOf N.limit N.sessions N.width result }
    {
        let Store {
            book,
            origin: _,
            width: _,
        } = self;
        book.into_inner().close(rt)
    }

    /// How many values each row has.
    pub(crate) fn width(&self) -> Width
        ensures { result ≡ N.width }
    {
        self.width
    }

    /// The lock, taken. Nothing else of this crate reaches it, so who has no handle to wait by can't take it.
    pub(crate) fn lock<R: Wait>(&self, rt: &R) -> MutexGuard<'_, LockedBook<N>> {
        self.book.lock(rt)
    }
}
