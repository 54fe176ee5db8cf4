//! The lines of a folded text, handed out one by one.

ghost use Rattle.std.specs.Prelude.{◌≢◌, ◌+◌, ◌^◌, ◌<◌, ◌++◌, ◌∷◌, [], All, List, MatchResult};
ghost use Rattle.profile_rows.specs.declared.weighted_stacks.WeightedStack.{WeightedStack};
ghost use Rattle.profile_rows.specs.Rows.{total_of};
ghost use Rattle.folded_text.specs.FoldedText.{IsFirstFault, IsFoldedText, IsLineFault, IsRowLine};

use crate::folded::{FoldedFault, text_of};
use bstr::ByteSlice;
use simdutf8::basic;

/// Something that is made of the rows of a folded text: it takes the text's lines in order.
pub trait LineTaker<'a> {
    /// It is what these rows make.
    ghost is_of: { Self → List WeightedStack → Type 0 };

    /// Takes the row that a line spells, where it spells one that can follow the rows before. The line isn't empty.
    ///
    /// # Errors
    ///
    /// The line's fault, under this number.
    fn take_line(&mut self, line: &'a str, number: u64) -> Result<(), FoldedFault>
        requires one_line { All (λ byte. byte ≢ 10) line.now }
        requires before { (rows : List WeightedStack) × is_of self.old rows × (total_of rows < 2 ^ 63) }
        ensures { (rows : List WeightedStack) → is_of self.old rows → total_of rows < 2 ^ 63
            → MatchResult result
            (λ done. (row : WeightedStack) × IsRowLine line.now row × (total_of rows + row.weight < 2 ^ 63)
            × is_of self.new (rows ++ row ∷ []))
            (IsLineFault (total_of rows) number line.now) };
}

/// Hands each line that isn't empty to what takes them, with its number, up to the first fault.
///
/// # Errors
///
/// The fault of the first line that has one.
pub fn take_lines<'a, T: LineTaker<'a>>(text: &'a [u8], taker: &mut T) -> Result<(), FoldedFault>
    requires { T.is_of taker.old [] }
    ensures { MatchResult result
        (λ done. (rows : List WeightedStack) × IsFoldedText text.now rows × T.is_of taker.new rows)
        (IsFirstFault text.now) }
{
    let is_utf8 = basic::from_utf8(text).is_ok();
    for (index, line) in text.lines().enumerate() {
        if !line.is_empty() {
            let number = index as u64 + 1;
            taker.take_line(text_of(line, is_utf8, number)?, number)?;
        }
    }
    Ok(())
}
