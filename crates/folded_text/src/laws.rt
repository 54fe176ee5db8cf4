//! Laws of folded text, each the contract of a function that does nothing. A caller calls one to use its law.

ghost use Rattle.std.specs.Prelude.{ℕ, ◌≡◌, ◌⊎◌, ◌^◌, ◌++◌, ◌<◌, All, List};
ghost use Rattle.profile_rows.specs.declared.weighted_stacks.WeightedStack.{WeightedStack};
ghost use Rattle.folded_text.specs.declared.folded.FoldedFault.{FoldedFault};
ghost use Rattle.folded_text.specs.declared.folded.FoldedFault.TheVariants.{NoMemory};
ghost use Rattle.profile_rows.specs.Rows.{IsBatchRow, total_of};
ghost use Rattle.profile_rows.specs.Aggregate.{aggregate_of, rows_of};
ghost use Rattle.folded_text.specs.FoldedText.{IsFirstFault, IsFoldedText, folded_text_of, rows_text};

/// The text of rows that a batch can hold is folded text of exactly these rows, also of those of weight 0.
pub fn written_rows_read_back()
    ensures { (rows : List WeightedStack) → All IsBatchRow rows → total_of rows < 2 ^ 63
        → IsFoldedText (rows_text rows) rows }
{}

/// Folded reports that are put together are folded text of the rows of both (`read`), and their folded report is that
/// of all rows (`report`): so parts of an input can be folded by themselves, on as many machines as there are, and
/// their reports folded once more. Totals, top lists and layouts depend on the rows' aggregate alone, which is then the
/// same.
pub fn reports_of_parts_add_up()
    ensures read { (rows more : List WeightedStack)
        → All IsBatchRow (rows ++ more) → total_of (rows ++ more) < 2 ^ 63
        → IsFoldedText (rows_text rows ++ rows_text more) (rows ++ more) }
    ensures report { (rows more : List WeightedStack)
        → folded_text_of (rows_of (aggregate_of rows) ++ rows_of (aggregate_of more))
        ≡ folded_text_of (rows ++ more) }
{}

/// A text has at most one first fault, `NoMemory` aside (`one`), and folded text has none (`none`). So whatever
/// reads a text with a fault tells this one or `NoMemory`.
pub fn a_text_has_one_first_fault()
    ensures one { (text : List ℕ) (fault other : FoldedFault) → IsFirstFault text fault → IsFirstFault text other
        → (fault ≡ NoMemory) ⊎ ((other ≡ NoMemory) ⊎ (fault ≡ other)) }
    ensures none { (text : List ℕ) (rows : List WeightedStack) (fault : FoldedFault)
        → IsFoldedText text rows → IsFirstFault text fault → fault ≡ NoMemory }
{}
