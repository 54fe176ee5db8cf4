//! The end of a history: who has it knows all of the history, and alone adds to it.

ghost use Rattle.std.specs.Prelude.{◌≡◌, ◌<◌, ◌^◌, ◌++◌, ◌∷◌, [], length};
ghost use mathlib.Core.List.{IsPrefix};
ghost use Rattle.shown_versions.specs.Histories.{entry_made};

use crate::beginning::{NewHistory, new_pen};
use crate::front::Front;
use crate::history_rule::{
    AddsChange, Asked, FindsUnused, HistoryWord, NoTrade, SeenLines, Signed,
};
use crate::name::StoreName;
use crate::reached::Reached;
use logbook::Pen;
use op_book::Ready;
use std::marker::{Model, PhantomData};
use std::snapshot::Snapshot;

/// The end of the history of the store of this name. It has the only pen that writes the next line, so there is one end
/// of a history, and nobody else adds to it. Contracts see the list of all changes of the history.
#[derive(Drop)]
pub struct HistoryEnd<N: StoreName> {
    word: HistoryWord,
    pen: Pen,
    lines: SeenLines,
    count: u64,
    of: PhantomData<N>,
}

impl<N: StoreName> Model for HistoryEnd<N> {
    ghost use Rattle.std.specs.Prelude.{◌≡◌, ◌<◌, List, length};
    ghost use Rattle.logbook.specs.Pages.{may_write};
    ghost use Rattle.op_book.specs.Operations.{PlainEntry};
    ghost use Rattle.shown_versions.specs.Histories.{entries_of, head_of, next_pen};

    ghost Value = { List PlainEntry };

    ghost view = { λ e. entries_of e.lines.log };

    ghost invariant = { λ e. (e.word ≡ head_of N.history) × (e.lines.book ≡ N.history)
        × (e.pen.book ≡ N.history) × (e.pen.nib.right ≡ may_write) × (e.pen.nib.key ≡ next_pen e.lines.log)
        × (0 < length e.lines.log) × (e.count ≡ length (entries_of e.lines.log)) };
}

impl<N: StoreName> HistoryEnd<N> {
    /// The end of the history that the store of this name has.
    pub fn of(history: NewHistory) -> HistoryEnd<N>
        requires { history ≡ N.history }
        ensures { result ≡ [] }
    {
        let NewHistory { word, pen, lines } = history;
        HistoryEnd {
            word,
            pen,
            lines,
            count: 0,
            of: PhantomData,
        }
    }

    /// The list of all changes, with its evidence. Takes no memory.
    pub fn front(&self) -> Front<N>
        ensures { result ≡ self.now }
    {
        let reached = Reached {
            lines: self.lines.again(),
        };
        Front::of(self.count, &reached)
    }

    /// A list that the history has reached becomes the whole list, of which it is a beginning.
    pub fn catch_up(&mut self, front: &mut Front<N>)
        ensures whole { front.new ≡ self.old }
        ensures began { IsPrefix front.old self.old }
        ensures same { self.new ≡ self.old }
    {
        let mut both = self.lines.again();
        front.seen.tell(&mut both);
        let mut asked: Asked = both.plain::<NoTrade, (), NoTrade>(&());
        let _ = self
            .word
            .compare_exchange::<FindsUnused, NoTrade>(1, 1, &mut both, &mut asked, &mut self.pen);
        *front = self.front();
    }

    /// Adds the change that a book is ready for. Takes no memory.
    pub fn add(&mut self, ready: &Ready)
        requires room { length self.old < 2 ^ 62 }
        ensures { self.new ≡ self.old ++ entry_made ready.now ∷ [] }
    {
        let next = new_pen(&self.word, &self.lines);
        let signed = Signed {
            ready: Snapshot::of(ready),
            next: Snapshot::of(&next),
        };
        let mut asked: Asked = self.lines.plain::<NoTrade, Signed, AddsChange>(&signed);
        let _ = self
            .word
            .compare_exchange::<AddsChange, NoTrade>(
                1,
                1,
                &mut self.lines,
                &mut asked,
                &mut self.pen,
            );
        self.pen = next;
        self.count += 1;
    }
}
