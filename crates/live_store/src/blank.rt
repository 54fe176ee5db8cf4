//! A store before any thread uses it.

ghost use Rattle.std.specs.Prelude.{◌≡◌, [], IfOk, MatchResult};
ghost use Rattle.live_store.specs.Stores.{IsBlankOf, IsMakeFault};

use crate::fault::MakeFault;
use op_book::{Book, MAX_SESSIONS};
use profile_rows::{Hashing, NoMemory, Width};
use shown_versions::{NewHistory, Reached, Version, VersionWriter, new_writer};
use std::alloc::Global;
use std::marker::Model;
use std::sync::Arc;

/// An empty store that has no name yet: [`Store::start`](crate::Store::start) takes it.
pub struct Blank {
    pub(crate) book: Book,
    pub(crate) sessions: u32,
    pub(crate) width: Width,
    pub(crate) history: NewHistory,
    pub(crate) versions: VersionWriter,
}

impl Model for Blank {
    ghost use Rattle.std.specs.Prelude.{◌≡◌, ◌≤◌, []};
    ghost use Rattle.left_right.specs.Sides.{view as known};
    ghost use Rattle.shown_versions.specs.Views.{listed};
    ghost use Rattle.live_store.specs.Stores.{StoreLimits};
    ghost use Rattle.op_book.specs.Runs.{most_sessions};

    ghost Value = { StoreLimits };

    ghost view = { λ b. record
        { limit = b.book.limit; sessions = b.sessions; width = b.width; history = b.history } };

    ghost invariant = { λ b. (b.book.entries ≡ []) × (b.book.sessions ≡ b.sessions) × (b.sessions ≤ most_sessions)
        × (b.book.width ≡ b.width)
        × (b.versions.desk.shown.value.seen.log ≡ []) × (b.versions.desk.shown.value.seen.book ≡ b.history)
        × (b.versions.desk.shown.value.width ≡ b.width)
        × (listed (known b.versions.desk.place) ≡ []) };
}

/// The version of no changes.
fn first_version(alloc: Global, book: &Book, seen: Reached) -> Result<Version, NoMemory>
    requires nothing { book.now.entries ≡ [] }
    requires fresh { seen.log ≡ [] }
    ensures { IfOk result (λ version. version ≡ record { seen = seen; width = book.now.width }) }
{
    book.facts();
    let tree = book.tree().share()?;
    Ok(Version::new(0, Arc::new(alloc, tree)?, seen))
}

impl Blank {
    /// An empty store of at most `limit` changes, of 1 to [`MAX_SESSIONS`] sessions, and of rows of so many values.
    ///
    /// # Errors
    ///
    /// `Sessions` exactly where it can't have so many sessions; `Place` where there is no memory for its versions;
    /// `NoMemory`.
    pub fn make(alloc: Global, limit: u32, sessions: u32, width: Width) -> Result<Blank, MakeFault>
        ensures { MatchResult result (IsBlankOf limit sessions width) (IsMakeFault sessions) }
    {
        Blank::make_with(alloc, Hashing::fixed(), limit, sessions, width)
    }

    /// As [`make`](Blank::make), and `hashing` says how the store hashes names.
    ///
    /// # Errors
    ///
    /// Those of [`make`](Blank::make).
    pub fn make_with(
        alloc: Global,
        hashing: Hashing,
        limit: u32,
        sessions: u32,
        width: Width,
    ) -> Result<Blank, MakeFault>
        ensures { MatchResult result (IsBlankOf limit sessions width) (IsMakeFault sessions) }
    {
        if sessions == 0 || sessions > MAX_SESSIONS {
            return Err(MakeFault::Sessions);
        }
        let Ok(book) = Book::with_hashing(alloc, hashing, limit, sessions, width) else {
            return Err(MakeFault::NoMemory);
        };
        let Some(history) = NewHistory::new() else {
            drop(book);
            return Err(MakeFault::Place);
        };
        let Ok(first) = first_version(alloc, &book, history.reached()) else {
            drop(book);
            return Err(MakeFault::NoMemory);
        };
        let Ok(versions) = new_writer(alloc, first, sessions as usize) else {
            drop(book);
            return Err(MakeFault::Place);
        };
        Ok(Blank {
            book,
            sessions,
            width,
            history,
            versions,
        })
    }
}
