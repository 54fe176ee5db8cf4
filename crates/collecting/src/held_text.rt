//! Lines that were received and aren't all added yet.

ghost use Rattle.std.specs.Prelude.{◌≡◌, ◌+◌, ◌≤◌, drop, length};

use collect_sources::{Lines, Origin, count_lines};
use std::sync::{Arc, Wait};

/// Lines of one origin. Those before `from` are added.
#[derive(Drop)]
pub(crate) struct Text {
    origin: Arc<Origin>,
    bytes: Vec<u8>,
    from: usize,
    /// How many lines aren't added.
    left: u64,
    ghost within: { from ≤ length bytes.items },
}

impl Text {
    ghost use Rattle.collecting.specs.Added.{IsAfter};

    /// Lines of an origin.
    pub(crate) fn new(origin: Arc<Origin>, lines: Lines) -> Text {
        Text {
            origin,
            bytes: lines.bytes,
            from: 0,
            left: lines.count,
        }
    }

    pub(crate) fn origin(&self) -> &Arc<Origin> {
        &self.origin
    }

    /// The lines that aren't added.
    pub(crate) fn rest(&self) -> &[u8]
        ensures { result.now ≡ drop self.now.from self.now.bytes.items }
    {
        &self.bytes[self.from..]
    }

    /// Goes on after so many bytes, and gives how many lines of the origin come before them.
    pub(crate) fn skip(&mut self, len: usize) -> u64
        requires { self.old.from + len ≤ length self.old.bytes.items }
        ensures { IsAfter self.old len self.new }
    {
        let until = self.from + len;
        let count = if until == self.bytes.len() {
            self.left
        } else {
            count_lines(&self.bytes[self.from..until])
        };
        self.from = until;
        self.left = self.left.saturating_sub(count);
        self.origin.count_lines(count)
    }

    /// Gives the room of its bytes back, for what its origin brings next.
    pub(crate) fn let_go<R: Wait>(self, rt: &R) {
        let Text { origin, bytes, .. } = self;
        origin.give_back(rt, bytes);
    }
}
