//! A history at its beginning.

ghost use Rattle.std.specs.Prelude.{◌≡◌, []};
ghost use Rattle.logbook.specs.Pages.{may_write};
ghost use Rattle.shown_versions.specs.Histories.{head_of};

use crate::history_rule::{Asked, Begins, HistoryRule, HistoryWord, NoTrade, SeenLines, TakesPen};
use crate::reached::Reached;
use logbook::{Pen, Seen, Start, Word};
use std::marker::Model;

/// A history without changes, of which no store is named yet. Contracts see which history it is.
#[derive(Drop)]
pub struct NewHistory {
    pub(crate) word: HistoryWord,
    pub(crate) pen: Pen,
    pub(crate) lines: SeenLines,
}

impl Model for NewHistory {
    ghost use Rattle.std.specs.Prelude.{◌≡◌, ◌<◌, [], length};
    ghost use Rattle.logbook.specs.Pages.{Book, may_write};
    ghost use Rattle.shown_versions.specs.Histories.{entries_of, head_of, next_pen};

    ghost Value = { Book };

    ghost view = { λ h. h.lines.book };

    ghost invariant = { λ h. (h.word ≡ head_of h.lines.book) × (h.pen.book ≡ h.lines.book)
        × (h.pen.nib.right ≡ may_write) × (h.pen.nib.key ≡ next_pen h.lines.log) × (0 < length h.lines.log)
        × (entries_of h.lines.log ≡ []) };
}

impl NewHistory {
    /// A history of its own, with the only pen that writes its next line. Takes no memory.
    ///
    /// None would say that somebody else has begun it, which doesn't come: nobody else has its word yet.
    pub fn new() -> Option<NewHistory> {
        let (mut lines, mut first, _second) = Seen::open(Start::alone(), 0, 0);
        let word = Word::tracked(0, &mut first);
        let mut asked: Asked = lines.plain::<NoTrade, (), NoTrade>(&());
        let mut pen = lines.no_pen();
        let found = word.compare_exchange::<Begins, NoTrade>(
            0, 1, &mut lines, &mut asked, &mut pen,
        );
        if found != 0 {
            return None;
        }
        drop(Word::<_, _, HistoryRule>::tracked(0, &mut pen));
        Some(NewHistory { word, pen, lines })
    }

    /// The evidence of its list, which is empty.
    pub fn reached(&self) -> Reached
        ensures { result ≡ record { log = []; book = self.now } }
    {
        Reached {
            lines: self.lines.again(),
        }
    }
}

/// A pen for a later line.
pub(crate) fn new_pen(word: &HistoryWord, lines: &SeenLines) -> Pen
    requires { word.now ≡ head_of lines.now.book }
    ensures history { result.book ≡ lines.now.book }
    ensures right { result.nib.right ≡ may_write }
{
    let mut lines = lines.again();
    let mut asked: Asked = lines.plain::<NoTrade, (), NoTrade>(&());
    let mut pen = lines.no_pen();
    let _ = word.compare_exchange::<TakesPen, NoTrade>(1, 1, &mut lines, &mut asked, &mut pen);
    drop(Word::<_, _, HistoryRule>::tracked(0, &mut pen));
    pen
}
