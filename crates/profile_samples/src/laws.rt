//! Laws of the definitions in `specs/`, each the contract of a function that does nothing. A caller calls one to use
//! its law.

ghost use Rattle.std.specs.Prelude.{ℕ, ◌≡◌, ◌≢◌, ◌<◌, ◌≤◌, ◌^◌, All, List, length};
ghost use Rattle.pprof_profile.specs.Valid.{IsValidDraft};
ghost use Rattle.profile_rows.specs.declared.weighted_stacks.WeightedStack.{WeightedStack};
ghost use Rattle.profile_rows.specs.Rows.{IsBatchRow, total_of};
ghost use Rattle.profile_rows.specs.Limits.{most_frames};
ghost use Rattle.profile_rows.specs.Names.{IsName};
ghost use Rattle.profile_rows.specs.Values.{BatchState, IsBatch, Row, rows_at};
ghost use Rattle.pprof_profile.specs.declared.messages.Draft.{Draft};
ghost use Rattle.profile_samples.specs.declared.sampling.BatchFault.{BatchFault};
ghost use Rattle.profile_samples.specs.declared.sampling.ValueChoice.{ValueChoice};
ghost use Rattle.profile_samples.specs.declared.sampling.ValueChoice.TheVariants as choices;
ghost use Rattle.profile_samples.specs.Export.{KindAndUnit, exported_profile_of, single_profile_of};
ghost use Rattle.profile_samples.specs.Batches.{AreStacksOf, IsBatchOf, IsFirstBatchFault, IsFirstStacksFault};

/// Every rows' export is a valid profile where each row has a value of each kind, and the rows of a batch of one value
/// are those that its own choice of a value gives back. By all values, every batch comes back.
pub fn export_reads_back()
    ensures valid { (rows : List Row) (units : List KindAndUnit)
        → All (λ row. length row.weights ≡ length units) rows → IsValidDraft (exported_profile_of rows units) }
    ensures rows { (rows : List WeightedStack) (kind unit : List ℕ) → All IsBatchRow rows → total_of rows < 2 ^ 63
        → AreStacksOf (single_profile_of rows kind unit) choices.Default rows }
    ensures batch { (batch : BatchState) (units : List KindAndUnit) → length units ≡ batch.width → IsBatch batch
        → All (λ row. All IsName row.stack × (length row.stack ≤ most_frames)) (rows_at 0 batch.rows)
        → IsBatchOf (exported_profile_of batch.rows units) choices.All batch }
{}

/// A batch of one value has the rows of its samples by that value.
pub fn rows_of_one_value()
    ensures { (draft : Draft) (choice : ValueChoice) (batch : BatchState) → IsBatchOf draft choice batch
        → batch.width ≡ 1 → AreStacksOf draft choice (rows_at 0 batch.rows) }
{}

/// A profile has at most one first fault of its samples, `NoMemory` aside: by any choice (`batch`), and by one of
/// one value (`stacks`).
pub fn one_first_fault()
    ensures batch { (draft : Draft) (choice : ValueChoice) (one other : BatchFault)
        → one ≢ BatchFault.NoMemory → other ≢ BatchFault.NoMemory
        → IsFirstBatchFault draft choice one → IsFirstBatchFault draft choice other → one ≡ other }
    ensures stacks { (draft : Draft) (choice : ValueChoice) (one other : BatchFault)
        → one ≢ BatchFault.NoMemory → other ≢ BatchFault.NoMemory
        → IsFirstStacksFault draft choice one → IsFirstStacksFault draft choice other → one ≡ other }
{}
