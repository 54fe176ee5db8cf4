//! The rule of the history, and its steps.

use logbook::{Gain, Offer, Pen, Plain, Play, Rule, Seen, Word};
use op_book::{Entry, Ready};
use std::snapshot::Snapshot;

/// A line of the history: that it begins, or a change. Each names the pen that writes the next line. Contracts speak of
/// it; no value of it is made.
pub enum Line {
    /// The history begins.
    Begins(u64),
    /// A change is added.
    Adds(Entry, u64),
}

/// The rule of the history: a line is written with the pen that the line before names, and that pen is then used up.
pub struct HistoryRule;

impl Rule<Line, u64> for HistoryRule {
    ghost use Rattle.std.specs.Prelude.{[]};
    ghost use base.Fml.{ftrue};
    ghost use Rattle.shown_versions.specs.Histories.{IsKept};

    ghost holds = { λ cells log. IsKept cells log };

    ghost first = { [] };

    ghost hinted = { λ n log. Unit {0} };

    ghost shows = { λ log. [] };

    ghost keeps = { λ names log. ftrue };

    ghost moves = { λ ask before after answer. Unit {0} };
}

/// A step of the history hands nothing over beside what it tells.
pub struct NoTrade;

impl Gain<Line, u64> for NoTrade {
    ghost use base.Fml.{ftrue};

    ghost after = { λ names about answer. ftrue };
}

/// The step that begins the history, where it hasn't begun.
pub struct Begins;

impl Play<Line, u64> for Begins {
    ghost use Rattle.shown_versions.specs.Histories.{HasBegun};

    ghost then = { HasBegun };
}

/// The step that takes a pen for a later line.
pub struct TakesPen;

impl Play<Line, u64> for TakesPen {
    ghost use Rattle.shown_versions.specs.Histories.{HasTakenPen};

    ghost then = { HasTakenPen };
}

/// The step that finds that a pen isn't used up.
pub struct FindsUnused;

impl Play<Line, u64> for FindsUnused {
    ghost use Rattle.shown_versions.specs.Histories.{IsUnused};

    ghost then = { IsUnused };
}

/// The step that writes the line of a change.
pub struct AddsChange;

impl Play<Line, u64> for AddsChange {
    ghost use Rattle.shown_versions.specs.Histories.{IsAdded};

    ghost then = { IsAdded };
}

/// What a step that writes no change asks for.
impl Plain<(), Line, u64> for NoTrade {
    ghost use Rattle.std.specs.Prelude.{None};
    ghost use Rattle.shown_versions.specs.declared.history_rule.Line.TheVariants as line;

    ghost ask = { λ _. line.Begins 0 };

    ghost state = { λ _. None };
}

/// A change that a book is ready for, and the pen that writes the line after its own.
#[derive(Drop)]
pub struct Signed {
    pub ready: Snapshot<Ready>,
    pub next: Snapshot<Pen>,
}

impl Plain<Signed, Line, u64> for AddsChange {
    ghost use Rattle.std.specs.Prelude.{None};
    ghost use Rattle.shown_versions.specs.Histories.{line_made};

    ghost ask = { line_made };

    ghost state = { λ signed. None };
}

/// The word that the steps of a history are made on.
pub type HistoryWord = Word<Line, u64, HistoryRule>;

/// The evidence that the history has reached a list of lines.
pub type SeenLines = Seen<Line, u64, HistoryRule>;

/// What a step of the history asks for.
pub type Asked = Offer<Line, u64, HistoryRule, NoTrade>;
