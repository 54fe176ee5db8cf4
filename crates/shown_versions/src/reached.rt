//! The evidence of a list of changes.

ghost use Rattle.std.specs.Prelude.{◌≡◌, ◌≤◌, length};
ghost use mathlib.Core.List.{IsPrefix};
ghost use Rattle.shown_versions.specs.Histories.{entries_of};

use crate::history_rule::SeenLines;
use std::marker::Model;

/// The evidence that a history has reached a list of changes. It takes no bytes, and it lasts. Contracts see the list,
/// and which history it is.
#[derive(Drop)]
pub struct Reached {
    pub(crate) lines: SeenLines,
}

impl Model for Reached {
    ghost use Rattle.shown_versions.specs.Histories.{ReachedList, entries_of};

    ghost Value = { ReachedList };

    ghost view = { λ r. record { log = entries_of r.lines.log; book = r.lines.book } };
}

impl Reached {
    /// The same evidence once more. Takes no memory.
    pub fn again(&self) -> Reached
        ensures { result ≡ self.now }
    {
        Reached {
            lines: self.lines.again(),
        }
    }

    /// Lets the evidence of lines know this list too.
    pub(crate) fn tell(&self, lines: &mut SeenLines)
        requires { self.now.book ≡ lines.old.book }
        ensures history { lines.new.book ≡ lines.old.book }
        ensures begins { IsPrefix lines.old.log lines.new.log }
        ensures told { IsPrefix self.now.log (entries_of lines.new.log) }
    {
        lines.learn(&self.lines);
    }

    /// Of two lists that a history has reached, the shorter begins the longer.
    pub(crate) fn compare(&self, other: &Reached)
        requires { other.now.book ≡ self.now.book }
        ensures shorter { length self.now.log ≤ length other.now.log → IsPrefix self.now.log other.now.log }
        ensures longer { length other.now.log ≤ length self.now.log → IsPrefix other.now.log self.now.log }
    {
        let mut both = self.lines.again();
        both.learn(&other.lines);
    }
}
