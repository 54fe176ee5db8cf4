//! The law of the order of stack texts, the contract of a function that does nothing. A caller calls it to use it.

ghost use Rattle.std.specs.Prelude.{ℕ, ◌≡◌, List};
ghost use Rattle.profile_rows.specs.Rows.{stack_cmp};
ghost use Rattle.ordered_rows.specs.StackFrames.{frames_of};
ghost use Rattle.ordered_rows.specs.StackOrder.{IsJoined, stack_text_cmp};

/// Stack texts without empty frames, compared by their bytes with the semicolon lowest, are in the order of their
/// stacks.
pub fn stack_texts_are_in_the_order_of_stacks()
    ensures { (text other : List ℕ) → IsJoined text → IsJoined other
        → stack_text_cmp text other ≡ stack_cmp (frames_of text) (frames_of other) }
{}
