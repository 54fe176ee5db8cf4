//! What a closed book leaves.

ghost use Rattle.std.specs.Prelude.{◌≡◌};
ghost use Rattle.op_book.specs.Books.{IsJournal, journal_of};
ghost use Rattle.op_book.specs.Operations.{counting_from, operations_of};

use crate::book::Book;
use crate::entry::Entry;
use call_tree::CallTree;
use profile_rows::Width;
use std::marker::Model;

/// The entries of a closed book, with the tree that they made.
#[derive(Drop)]
pub struct Journal {
    book: Book,
}

impl Model for Journal {
    ghost use Rattle.op_book.specs.Books.{JournalState, journal_of};

    ghost Value = { JournalState };

    ghost view = { λ j. journal_of j.book };
}

impl Journal {
    /// The journal of a book.
    pub(crate) fn new(book: Book) -> Journal
        ensures { result ≡ journal_of book }
    {
        Journal { book }
    }

    /// The entries, in the order in which the changes were made.
    pub fn entries(&self) -> &[Entry]
        ensures entries { result.now ≡ self.now.entries }
        ensures kept { IsJournal self.now }
    {
        self.book.facts();
        self.book.entries()
    }

    /// The tree of what counts.
    pub fn tree(&self) -> &CallTree
        ensures tree { result.now ≡ self.now.tree }
        ensures kept { IsJournal self.now }
    {
        self.book.facts();
        self.book.tree()
    }

    /// The place after the last reset, 0 where there is none: the additions that count stand at it and after it.
    pub fn counting_from(&self) -> usize
        ensures { result ≡ counting_from (operations_of self.now.entries) }
    {
        place_after_reset(self.entries())
    }

    /// How many sessions the book had, whose numbers are from 0.
    pub fn sessions(&self) -> u32
        ensures sessions { result ≡ self.now.sessions }
        ensures kept { IsJournal self.now }
    {
        self.book.facts();
        self.book.sessions()
    }

    /// How many values each row has.
    pub fn width(&self) -> Width
        ensures width { result ≡ self.now.width }
        ensures kept { IsJournal self.now }
    {
        self.book.facts();
        self.book.width()
    }
}

/// The place after the last reset among entries, 0 where there is none.
fn place_after_reset(entries: &[Entry]) -> usize
    ensures { result ≡ counting_from (operations_of entries.now) }
{
    let mut after = 0;
    for (place, entry) in entries.iter().enumerate() {
        if entry.op.is_reset() {
            after = place + 1;
        }
    }
    after
}
