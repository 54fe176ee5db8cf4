//! The frames of a row by the numbers of their names.

ghost use Rattle.std.specs.Prelude.{◌≡◌, ◌<◌, ◌≤◌, ◌^◌, [], All, IsTrue, MatchResult, length, map, take};
ghost use Rattle.name_counts.specs.NumberedRows.{HasFrameAt, HasReplaced, IsBeginning};
ghost use Rattle.name_counts.specs.TextTables.{names_at, number_in, with_text};

use crate::frame_source::FrameSource;
use crate::text_table::TextTable;
use basics::NoMemory;
use bumpalo::Bump;
use profile_rows::Hashing;
use std::alloc::Global;
use std::marker::Model;

/// Names that are numbered as they come, and the numbers of those of a row's frames. The next row may have many of them
/// at the same places, and these aren't looked up again. A contract sees the names, the frames and the hashing.
#[derive(Drop)]
pub struct NumberedRow<'a> {
    /// Copies of the names, next to one another.
    arena: &'a Bump,
    names: TextTable<'a>,
    numbers: Vec<usize>,
}

impl<'a> Model for NumberedRow<'a> {
    ghost use Rattle.std.specs.Prelude.{All};
    ghost use Rattle.name_counts.specs.NumberedRows.{IsNumberOfText, NumberedFrames};
    ghost use Rattle.name_counts.specs.TextTables.{names_at};

    ghost Value = { NumberedFrames };

    ghost view = { λ row. record {
      texts = row.names.texts;
      frames = names_at row.names.texts row.numbers.items;
      hashing = row.names.hashing;
    } };

    ghost invariant = { λ row. All (IsNumberOfText row.names.texts) row.numbers.items };
}

impl<'a> NumberedRow<'a> {
    /// No name yet and no frame. Names will be copied into `arena`, and `hashing` says how they will be hashed. Takes no
    /// memory.
    pub fn new(alloc: Global, hashing: Hashing, arena: &'a Bump) -> NumberedRow<'a>
        ensures { result ≡ record { texts = []; frames = []; hashing = hashing } }
    {
        NumberedRow {
            arena,
            names: TextTable::new(alloc, hashing),
            numbers: Vec::new(alloc),
        }
    }

    /// The names so far.
    pub fn names(&self) -> &TextTable<'a>
        ensures { result.now ≡ record { texts = self.now.texts; hashing = self.now.hashing } }
    {
        &self.names
    }

    /// The numbers of the frames' names.
    pub fn numbers(&self) -> &[usize]
        ensures numbers { result.now ≡ map (number_in self.now.texts) self.now.frames }
        ensures names { names_at self.now.texts result.now ≡ self.now.frames }
        ensures inside { All (λ number. number < length self.now.texts) result.now }
        ensures fits { All (λ number. number < 2 ^ 63) result.now }
    {
        self.numbers.as_slice()
    }

    /// Whether the frame at this depth is this one.
    #[inline(always)]
    fn is_at(&self, depth: usize, frame: &str) -> bool
        ensures { IsTrue result → HasFrameAt depth frame.now self.now self.now }
    {
        match self.numbers.get(depth) {
            Some(number) => self.names.texts()[*number] == frame,
            None => false,
        }
    }

    /// Leaves so many first frames.
    fn keep(&mut self, depth: usize)
        ensures { self.new ≡ record self.old { frames = take depth self.old.frames } }
    {
        self.numbers.truncate(depth);
    }

    /// Adds a frame.
    #[inline(always)]
    fn push(&mut self, frame: &str) -> Result<(), NoMemory>
        ensures { MatchResult result (λ done. HasFrameAt (length self.old.frames) frame.now self.old self.new)
            (λ fault. self.new.frames ≡ self.old.frames) }
    {
        let number = self.names.number_with(self.arena, frame)?;
        Ok(self.numbers.push(number)?)
    }

    /// Puts a frame at this depth. Where it stands there, those after it stay, and its name isn't looked up.
    #[inline(always)]
    fn set(&mut self, depth: usize, frame: &str) -> Result<(), NoMemory>
        requires { depth ≤ length self.old.frames }
        ensures { MatchResult result (λ done. HasFrameAt depth frame.now self.old self.new)
            (λ fault. self.new.frames ≡ take depth self.old.frames) }
    {
        if self.is_at(depth, frame) {
            return Ok(());
        }
        self.keep(depth);
        self.push(frame)
    }

    /// Puts these frames, root first, in the place of those before, and looks up no name of the frames that both share
    /// from their roots. Names that are new get the next numbers.
    ///
    /// # Errors
    ///
    /// `NoMemory`; the row then has the first of these frames, and none of those before that differ.
    pub fn replace<'f, F: FrameSource<'f>>(&mut self, frames: &mut F) -> Result<(), NoMemory>
        ensures { MatchResult result (λ done. HasReplaced (F.left frames.old) self.old self.new)
            (λ fault. IsBeginning self.new.frames (F.left frames.old)) }
    {
        let mut depth = 0;
        while let Some(frame) = frames.next_frame() {
            self.set(depth, frame)?;
            depth += 1;
        }
        self.keep(depth);
        Ok(())
    }
}
