//! What the names of rows weigh, without the rows.

ghost use Rattle.std.specs.Prelude.{◌≡◌, ◌+◌, ◌^◌, ◌<◌, ◌++◌, ◌∷◌, [], All, List, IfOk, OnOk, map, take};
ghost use Rattle.std.specs.Option.{option_copied};
ghost use Rattle.profile_rows.specs.declared.weighted_stacks.WeightedStack.{WeightedStack};
ghost use Rattle.profile_rows.specs.Names.{IsName};
ghost use Rattle.profile_rows.specs.Rows.{kept_rows};
ghost use Rattle.name_counts.specs.Tallies.{HasCounted, HasRowToCount};
ghost use Rattle.profile_rows.specs.TopList.{AreTotalsOf};

use crate::frame_source::{FrameSource, ListedFrames};
use crate::lent_totals::LentTotals;
use crate::numbered_row::NumberedRow;
use crate::tallies::Tallies;
use basics::NoMemory;
use bumpalo::Bump;
use profile_rows::{FrameTotals, Hashing, Name, WeightedStack, WeightedStacks, keeps};
use std::alloc::{AllocError, Global};

/// Rows counted by the names of their frames, and not kept. What has been counted is what contracts say of both fields
/// together.
#[derive(Drop)]
pub struct CountedRows<'a> {
    /// The names so far, and the row before.
    pub row: NumberedRow<'a>,
    pub tallies: Tallies,
}

impl<'a> CountedRows<'a> {
    /// No row yet. Names will be copied into `arena`, and `hashing` says how they will be hashed. Takes no memory.
    pub fn new(alloc: Global, hashing: Hashing, arena: &'a Bump) -> CountedRows<'a>
        ensures counted { HasCounted [] result }
        ensures hashing { result.row.hashing ≡ hashing }
    {
        let names = Vec::new(alloc);
        CountedRows {
            row: NumberedRow::new(alloc, hashing, arena),
            tallies: Tallies { names, total: 0 },
        }
    }

    /// Counts the row whose frames stand in `row`, names of which may be new.
    ///
    /// # Errors
    ///
    /// `NoMemory`; the rows are then of no use.
    pub fn count_row(&mut self, weight: u64) -> Result<(), NoMemory>
        requires fits { self.old.tallies.total + weight < 2 ^ 63 }
        requires names { All IsName self.old.row.frames }
        requires counted { (rows : List WeightedStack) × HasRowToCount rows self.old }
        ensures { (rows : List WeightedStack) → HasRowToCount rows self.old
            → OnOk result
            (HasCounted (rows ++ (record { stack = self.old.row.frames; weight = weight }) ∷ []) self.new) }
    {
        self.tallies.reach(self.row.names().texts().len())?;
        let numbers = self.row.numbers();
        self.tallies.count(numbers, numbers.last().copied(), weight);
        Ok(())
    }

    /// Counts a row more, of these frames, root first.
    ///
    /// # Errors
    ///
    /// `NoMemory`; the rows are then of no use.
    pub fn count<'f, F: FrameSource<'f>>(
        &mut self,
        frames: &mut F,
        weight: u64,
    ) -> Result<(), NoMemory>
        requires fits { self.old.tallies.total + weight < 2 ^ 63 }
        requires names { All IsName (F.left frames.old) }
        requires counted { (rows : List WeightedStack) × HasCounted rows self.old }
        ensures { (rows : List WeightedStack) → HasCounted rows self.old
            → OnOk result
            (HasCounted (rows ++ (record { stack = F.left frames.old; weight = weight }) ∷ []) self.new) }
    {
        self.row.replace(frames)?;
        self.count_row(weight)
    }

    /// What the names of the rows weigh. They stay in the arena.
    ///
    /// # Errors
    ///
    /// `AllocError`.
    pub fn totals(&self, alloc: Global) -> Result<LentTotals<'a>, AllocError>
        requires { (rows : List WeightedStack) × HasCounted rows self.now }
        ensures { (rows : List WeightedStack) → HasCounted rows self.now
            → IfOk result (AreTotalsOf rows) }
    {
        self.tallies.totals(alloc, self.row.names().texts())
    }
}

/// The texts of names, as the frames of a row, in the place of others.
///
/// # Errors
///
/// `AllocError`.
pub fn replace_by_names<'a>(frames: &mut Vec<&'a str>, names: &'a [Name]) -> Result<(), AllocError>
    ensures texts { OnOk result (map (λ frame. frame.now) frames.new.items ≡ names.now) }
    ensures names { OnOk result (All IsName names.now) }
{
    frames.clear();
    for name in names {
        frames.push(name.text())?;
    }
    Ok(())
}

/// Counts a row, whose frames take the place of others in the buffer.
fn count_batch_row<'a>(
    rows: &mut CountedRows<'a>,
    frames: &mut Vec<&'a str>,
    row: &'a WeightedStack,
) -> Result<(), NoMemory>
    requires fits { rows.old.tallies.total + row.now.weight < 2 ^ 63 }
    requires counted { (before : List WeightedStack) × HasCounted before rows.old }
    ensures { (before : List WeightedStack) → HasCounted before rows.old
        → OnOk result (HasCounted (before ++ row.now ∷ []) rows.new) }
{
    replace_by_names(frames, row.stack.names())?;
    rows.count(&mut ListedFrames::of(frames.as_slice()), row.weight)
}

/// What the names weigh in the rows that have the focus, where there is one, and not the ignored name, where there is
/// one. Takes memory for names, and none for each row. `hashing` says how names are hashed.
///
/// # Errors
///
/// `NoMemory`.
pub fn kept_totals(
    alloc: Global,
    hashing: Hashing,
    batch: &WeightedStacks,
    focus: Option<&Name>,
    ignored: Option<&Name>,
) -> Result<FrameTotals, NoMemory>
    ensures { IfOk result
        (AreTotalsOf (kept_rows (option_copied focus.entry) (option_copied ignored.entry) batch.now)) }
{
    let arena = Bump::new(alloc);
    let mut rows = CountedRows::new(alloc, hashing, &arena);
    let mut frames = Vec::new(alloc);
    for row in batch.rows() {
        if keeps(row, focus, ignored) {
            count_batch_row(&mut rows, &mut frames, row)?;
        }
    }
    rows.totals(alloc)?.keep(alloc)
}
