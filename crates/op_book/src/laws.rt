//! Laws of operations, each the contract of a function that does nothing. A caller calls one to use its law.

ghost use Rattle.std.specs.Prelude.{◌≡◌, ◌++◌, ◌∷◌, All, List, false};
ghost use Rattle.std.specs.List.{flat_map};
ghost use Rattle.flame_report.specs.declared.query.Query.{Query};
ghost use Rattle.op_book.specs.Operations.{PlainOp, addition_of, ask, batches_after, is_reset, reset};

/// The additions that count are those after the last reset, and all where there is no reset. Reports change nothing.
pub fn additions_count_since_the_last_reset()
    ensures last { (before after : List PlainOp) → All (λ op. is_reset op ≡ false) after
        → batches_after (before ++ reset ∷ after) ≡ flat_map addition_of after }
    ensures all { (operations : List PlainOp) → All (λ op. is_reset op ≡ false) operations
        → batches_after operations ≡ flat_map addition_of operations }
    ensures reports { (before after : List PlainOp) (query : Query)
        → batches_after (before ++ ask query ∷ after) ≡ batches_after (before ++ after) }
{}
