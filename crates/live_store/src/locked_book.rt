//! What a store's lock keeps, and what happens under it.

ghost use Rattle.std.specs.Prelude.{◌≡◌, ◌+◌, ◌<◌, ◌≤◌, [], IfOk, MatchResult, OnErr, OnOk, length};
ghost use Rattle.std.specs.Arc.{arc_value};
ghost use Rattle.left_right.specs.Sides.{view as known};
ghost use Rattle.op_book.specs.Books.{IsSameBook};
ghost use Rattle.op_book.specs.Changes.{change_op};
ghost use Rattle.op_book.specs.Operations.{reset};
ghost use Rattle.shown_versions.specs.Views.{IsOf, listed};
ghost use Rattle.live_store.specs.Changes.{IsEvent, IsNextOf, IsNoEvent, IsRefused, IsWindow, session_of};
ghost use Rattle.live_store.specs.Stores.{IsGiveFault, IsJournalOf};

use crate::blank::Blank;
use crate::fault::SessionFault;
use crate::told::{Placed, Told, Window};
use call_tree::CallTree;
use op_book::{Book, BookFault, Change, Journal, Ready};
use shown_versions::{
    Front, HistoryEnd, StoreName, Version, VersionReader, VersionWriter, make_room, new_reader,
    publish,
};
use std::alloc::{AllocError, Global};
use std::sync::{Arc, Wait};

mod log;

pub(crate) use log::Log;

/// The book of a store, the end of its history, how many sessions were given, and the writer of the versions. All keep
/// the numbers of the store's name, and all have the same list of changes: that of the book, all of the history, that
/// of the version that is shown, and that which the writer knows of. So each list that the history has reached, as what
/// a session has seen, begins the book's.
pub(crate) struct LockedBook<N: StoreName> {
    book: Book,
    end: HistoryEnd<N>,
    sessions: u32,
    given: u32,
    versions: VersionWriter,
    ghost limit: { book.limit ≡ N.limit },
    ghost all: { book.sessions ≡ N.sessions },
    ghost wide: { book.width ≡ N.width },
    ghost many: { sessions ≡ N.sessions },
    ghost few: { given ≤ N.sessions },
    ghost whole: { end ≡ book.entries },
    ghost shown: { versions.desk.shown.value.seen.log ≡ book.entries },
    ghost history: { versions.desk.shown.value.seen.book ≡ N.history },
    ghost shown_wide: { versions.desk.shown.value.width ≡ N.width },
    ghost writer: { listed (known versions.desk.place) ≡ book.entries },
    ghost name: { 0 < given → IsOf (known versions.desk.place) N.history N.width },
}

/// The version of a book, whose tree is shared.
fn version_of<N: StoreName>(book: &Book, front: &Front<N>, tree: Arc<CallTree>) -> Version
    requires front { front.now ≡ book.now.entries }
    requires tree { arc_value tree ≡ book.now.tree }
    ensures { result
        ≡ record { seen = record { log = front.now; book = N.history }; width = book.now.width } }
{
    book.facts();
    Version::new(front.len(), tree, front.reached())
}

impl<N: StoreName> LockedBook<N> {
    /// What the lock will keep of a blank, of which no session was given, and its history, which has no change.
    pub(crate) fn of(blank: Blank) -> (LockedBook<N>, Front<N>)
        requires { blank
            ≡ record { limit = N.limit; sessions = N.sessions; width = N.width; history = N.history } }
        ensures { result.1 ≡ [] }
    {
        let Blank {
            book,
            sessions,
            width: _,
            history,
            versions,
        } = blank;
        let end = HistoryEnd::of(history);
        let origin = end.front();
        let locked = LockedBook {
            book,
            end,
            sessions,
            given: 0,
            versions,
        };
        (locked, origin)
    }

    /// The log of the next session, where not all were given, and its reader. Sessions are numbered from 0.
    pub(crate) fn give<R: Wait>(
        &mut self,
        rt: &R,
        alloc: Global,
    ) -> Result<(Log, VersionReader<N>), SessionFault>
        ensures number { MatchResult result (λ given. (given.0.number ≡ self.old.given)
            × (given.0.number < N.sessions) × (self.new.given ≡ given.0.number + 1)
            × (given.0.receipts.items ≡ []))
            (λ fault. IsGiveFault self.old.given N.sessions fault × (self.new.given ≡ self.old.given)) }
        ensures book { self.new.book ≡ self.old.book }
    {
        let number = self.given;
        if number >= self.sessions {
            return Err(SessionFault::AllGiven);
        }
        if self.show_name(rt).is_err() {
            return Err(SessionFault::NoMemory);
        }
        match new_reader::<N>(&mut self.versions) {
            Ok(reader) => {
                self.given = number + 1;
                Ok((Log::new(alloc, number), reader))
            }
            Err(_) => Err(SessionFault::Place),
        }
    }

    /// Before the first session, gives the writer its room, and shows the version once more, so that the writer knows
    /// of which history it is.
    fn show_name<R: Wait>(&mut self, rt: &R) -> Result<(), AllocError>
        ensures named { OnOk result (IsOf (known self.new.versions.desk.place) N.history N.width) }
        ensures given { self.new.given ≡ self.old.given }
        ensures book { self.new.book ≡ self.old.book }
    {
        if self.given == 0 {
            if !make_room(&mut self.versions) {
                return Err(AllocError);
            }
            let version = self.versions.published().share()?;
            publish(rt, &mut self.versions, version);
        }
        Ok(())
    }

    /// The event of a change: an entry of the book, its version, and its receipt, for which the session's log has
    /// memory. Afterwards the front has all changes of the book, also where the change is refused. What may run out of
    /// memory stands before the history's step.
    pub(crate) fn change<R: Wait>(
        &mut self,
        rt: &R,
        alloc: Global,
        front: &mut Front<N>,
        log: &mut Log,
        change: Change<'_>,
    ) -> Result<Placed<N>, BookFault>
        requires log { (log.old.number < N.sessions)
            × (length log.old.receipts.items < log.old.receipts.cap) }
        ensures event { MatchResult result
            (λ placing. IsEvent (session_of log.old front.old) self.old.book (change_op change.entry)
            placing.place placing.told (session_of log.new front.new) self.new.book)
            (IsNoEvent N.limit N.sessions N.width (session_of log.old front.old) self.old.book
            (change_op change.entry) (session_of log.new front.new) self.new.book) }
        ensures given { self.new.given ≡ self.old.given }
    {
        self.book.facts();
        self.end.catch_up(front);
        match self.book.prepare(alloc, log.number(), log.turn(), change) {
            Ok(ready) => match ready.share_next() {
                Ok(tree) => Ok(self.commit(rt, front, log, ready, tree)),
                Err(_) => {
                    drop(ready);
                    Err(BookFault::NoMemory)
                }
            },
            Err(fault) => Err(fault),
        }
    }

    /// The event of a reset, and the tree that is shown until then.
    pub(crate) fn take<R: Wait>(
        &mut self,
        rt: &R,
        alloc: Global,
        front: &mut Front<N>,
        log: &mut Log,
    ) -> Result<Window<N>, BookFault>
        requires log { (log.old.number < N.sessions)
            × (length log.old.receipts.items < log.old.receipts.cap) }
        ensures event { MatchResult result
            (λ window. IsEvent (session_of log.old front.old) self.old.book reset
            window.placed.place window.placed.told (session_of log.new front.new) self.new.book)
            (IsRefused N.limit N.sessions N.width (session_of log.old front.old) reset
            (session_of log.new front.new)) }
        ensures book { OnErr result (IsSameBook self.old.book self.new.book) }
        ensures given { self.new.given ≡ self.old.given }
        ensures window { IfOk result
            (λ window. IsWindow front.new window.placed.place N.width (arc_value window.tree)) }
    {
        let tree = self.versions.published().share_tree()?;
        let placed = self.change(rt, alloc, front, log, Change::Reset)?;
        Ok(Window { placed, tree })
    }

    /// The step of a change: the history and the book have it, then the version that is shown. It takes no memory, and
    /// can't be refused.
    fn commit<R: Wait>(
        &mut self,
        rt: &R,
        front: &mut Front<N>,
        log: &mut Log,
        ready: Ready,
        tree: Arc<CallTree>,
    ) -> Placed<N>
        requires tree { arc_value tree ≡ ready.next }
        requires next { IsNextOf (session_of log.old front.old) self.old.book ready }
        requires room { length log.old.receipts.items < log.old.receipts.cap }
        ensures event { IsEvent (session_of log.old front.old) self.old.book ready.op
            result.place result.told (session_of log.new front.new) self.new.book }
        ensures given { self.new.given ≡ self.old.given }
    {
        self.book.facts();
        self.end.add(&ready);
        let receipt = self.book.settle(ready);
        let version = version_of(&self.book, &self.end.front(), tree);
        publish(rt, &mut self.versions, version);
        *front = self.end.front();
        let place = log.keep_change(receipt);
        Placed {
            place,
            told: Told {
                front: self.end.front(),
            },
        }
    }

    /// The book closed, and the versions ended.
    pub(crate) fn close<R: Wait>(self, rt: &R) -> Journal
        ensures { IsJournalOf N.limit N.sessions N.width result }
    {
        let LockedBook {
            book,
            end: _,
            sessions: _,
            given: _,
            versions,
        } = self;
        drop(versions.take(rt));
        book.facts();
        book.into_journal()
    }
}
