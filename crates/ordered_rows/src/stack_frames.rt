//! The frames of a stack text, one after the other.

ghost use Rattle.std.specs.Prelude.{◌≡◌, ◌≢◌, ◌<◌, ◌++◌, All, OnOk, length, map};
ghost use Rattle.profile_rows.specs.Names.{IsName};
ghost use Rattle.ordered_rows.specs.StackFrames.{AreFrames, frame_in, frames_of};
ghost use Rattle.ordered_rows.specs.SpelledRows.{IsMeasured};

use bstr::ByteSlice;
use name_counts::FrameSource;
use std::alloc::AllocError;
use std::marker::Model;

/// The frames of a stack text, root first: the pieces between its semicolons, without the empty ones. They are lent
/// from the text.
#[derive(Drop)]
pub struct TextFrames<'a> {
    rest: &'a str,
}

impl<'a> Model for TextFrames<'a> {
    ghost use Rattle.std.specs.Prelude.{List, ℕ};
    ghost use Rattle.ordered_rows.specs.StackFrames.{frames_of};

    ghost Value = { List (List ℕ) };

    ghost view = { λ f. frames_of f.rest.now };
}

/// A text's first piece, and what stands after its semicolon: nothing where there is none.
#[inline(always)]
fn split_piece<'a>(text: &'a str) -> (&'a str, &'a str)
    ensures frames { frames_of text.now ≡ frame_in result.0.now ++ frames_of result.1.now }
    ensures shorter { 0 < length text.now → length result.1.now < length text.now }
{
    match text.as_bytes().find_byte(b';') {
        Some(at) => (&text[..at], &text[at + 1..]),
        None => (text, ""),
    }
}

impl<'a> TextFrames<'a> {
    /// The frames of this text.
    pub fn of(text: &'a str) -> TextFrames<'a>
        ensures frames { result ≡ frames_of text.now }
        ensures names { All (λ byte. byte ≢ 10) text.now → All IsName result }
    {
        TextFrames { rest: text }
    }
}

impl<'a> FrameSource<'a> for TextFrames<'a> {
    ghost left = { λ frames. frames };

    #[inline(always)]
    fn next_frame(&mut self) -> Option<&'a str> {
        while !self.rest.is_empty() {
            let (piece, rest) = split_piece(self.rest);
            self.rest = rest;
            if !piece.is_empty() {
                return Some(piece);
            }
        }
        None
    }
}

/// How many frames a stack text has, and how many bytes these have together.
pub fn measured(text: &str) -> (usize, usize)
    ensures { IsMeasured text.now result.0 result.1 }
{
    let mut depth = 0;
    let mut bytes = 0;
    let mut rest = TextFrames::of(text);
    while let Some(frame) = rest.next_frame() {
        depth += 1;
        bytes += frame.len();
    }
    (depth, bytes)
}

/// The frames of a stack text without a line feed, root first, in the place of others.
///
/// # Errors
///
/// `AllocError`; some of the frames may then stand there.
pub fn replace_by_text<'a>(frames: &mut Vec<&'a str>, text: &'a str) -> Result<(), AllocError>
    requires { All (λ byte. byte ≢ 10) text.now }
    ensures { OnOk result (AreFrames text.now (map (λ frame. frame.now) frames.new.items)) }
{
    frames.clear();
    let mut rest = TextFrames::of(text);
    while let Some(frame) = rest.next_frame() {
        frames.push(frame)?;
    }
    Ok(())
}
