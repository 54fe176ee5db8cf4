//! The frames of a row, as they come.

ghost use Rattle.std.specs.Prelude.{ℕ, ◌≡◌, ◌∷◌, [], List, MatchOption, map};

use std::marker::Model;

/// The frames of a stack, root first, handed out one by one.
pub trait FrameSource<'a> {
    /// The frames that are left.
    ghost left: { Self → List (List ℕ) };

    /// The next frame, while there is one.
    fn next_frame(&mut self) -> Option<&'a str>
        ensures { MatchOption result (left self.old ≡ []) (λ frame. left self.old ≡ frame.now ∷ left self.new) };
}

/// Frames that stand in a list.
#[derive(Drop)]
pub struct ListedFrames<'a> {
    rest: &'a [&'a str],
}

impl<'a> Model for ListedFrames<'a> {
    ghost use Rattle.std.specs.Prelude.{List, map, ℕ};

    ghost Value = { List (List ℕ) };

    ghost view = { λ frames. map (λ frame. frame.now) frames.rest.now };
}

impl<'a> ListedFrames<'a> {
    /// These frames.
    pub fn of(frames: &'a [&'a str]) -> ListedFrames<'a>
        ensures { result ≡ map (λ frame. frame.now) frames.now }
    {
        ListedFrames { rest: frames }
    }
}

impl<'a> FrameSource<'a> for ListedFrames<'a> {
    ghost left = { λ frames. frames };

    fn next_frame(&mut self) -> Option<&'a str> {
        let first = self.rest.first()?;
        self.rest = &self.rest[1..];
        Some(*first)
    }
}
