//! What the names weigh in the rows of folded text, counted while it is read.

ghost use Rattle.std.specs.Prelude.{◌≡◌, ◌≢◌, ◌+◌, ◌^◌, ◌<◌, ◌++◌, ◌∷◌, [], All, List, MatchResult, IfOk, None, OnOk};
ghost use Rattle.profile_rows.specs.declared.weighted_stacks.WeightedStack.{WeightedStack};
ghost use Rattle.profile_rows.specs.Merging.{AreMergedSoFar};
ghost use Rattle.profile_rows.specs.Rows.{total_of};
ghost use Rattle.name_counts.specs.Tallies.{HasCounted};
ghost use Rattle.profile_rows.specs.TopList.{AreTotalsOf};
ghost use Rattle.folded_text.specs.FoldedText.{GivesOfRows, IsLineFault, IsRowLine};
ghost use Rattle.ordered_rows.specs.SpelledRows.{IsStackText, spelled_rows};
ghost use Rattle.folded_text.specs.TextSums.{AreCounted};

use crate::folded::{FoldedFault, read_stack, stack_and_weight};
use crate::taking::{LineTaker, take_lines};
use crate::text_rows::TextRows;
use basics::NoMemory;
use bumpalo::Bump;
use name_counts::{CountedRows, LentTotals};
use ordered_rows::count_rows;
use profile_rows::{FrameTotals, Hashing};
use std::alloc::Global;

/// Counts the row that a line spells, where it spells one that can follow the others.
fn count_line(rows: &mut CountedRows, line: &str, number: u64) -> Result<(), FoldedFault>
    requires one_line { All (λ byte. byte ≢ 10) line.now }
    requires counted { (before : List WeightedStack) × HasCounted before rows.old × (total_of before < 2 ^ 63) }
    ensures { MatchResult result (λ done. (before : List WeightedStack) → HasCounted before rows.old
        → (row : WeightedStack) × IsRowLine line.now row × (total_of before + row.weight < 2 ^ 63)
        × HasCounted (before ++ row ∷ []) rows.new)
        (IsLineFault rows.old.tallies.total number line.now) }
{
    let (stack, weight) = stack_and_weight(line, number)?;
    read_stack(&mut rows.row, stack, weight, rows.tallies.total, number)?;
    Ok(rows.count_row(weight)?)
}

/// How many stack texts are kept before it is looked at whether that saves work.
const FIRST_TEXTS: u64 = 4096;

/// How many bytes of lines are read before it is looked at.
const FIRST_BYTES: usize = 1 << 20;

/// Whether keeping stack texts saves work: at least a quarter of so many lines had one that was there before, or it is
/// too early to tell. `bytes` is how many the lines have.
pub fn saves_work(texts: u64, lines: u64, bytes: usize) -> bool {
    (texts < FIRST_TEXTS && bytes < FIRST_BYTES) || lines - lines / 4 >= texts
}

/// A text whose rows are counted by the names of their frames. Those of one stack text wait to be counted together, as
/// long as that saves work.
#[derive(Drop)]
struct Counting<'a> {
    /// The rows that wait. There are none once rows are counted.
    waiting: Option<TextRows<'a>>,
    /// How many of the lines that were summed have a weight above 0: each of them has a text that waits.
    weighty: u64,
    /// How many bytes the lines so far have.
    bytes: usize,
    counted: CountedRows<'a>,
}

impl<'a> Counting<'a> {
    /// No line yet. Names will be copied into `arena`, and `hashing` says how they and stack texts are hashed.
    fn new(alloc: Global, hashing: Hashing, arena: &'a Bump) -> Counting<'a>
        ensures { AreCounted result.waiting result.counted [] }
    {
        let waiting = TextRows::new(alloc, hashing);
        Counting {
            waiting: Some(waiting),
            weighty: 0,
            bytes: 0,
            counted: CountedRows::new(alloc, hashing, arena),
        }
    }

    /// Whether waiting has saved work so far.
    fn should_wait(&self) -> bool {
        let waiting = self.waiting.as_ref();
        waiting.is_some_and(|sums| saves_work(sums.rows().len() as u64, self.weighty, self.bytes))
    }

    /// Counts the rows that wait.
    fn count_waiting(&mut self) -> Result<(), NoMemory>
        requires { (merged : List WeightedStack) × AreCounted self.old.waiting self.old.counted merged }
        ensures { (merged : List WeightedStack) → AreCounted self.old.waiting self.old.counted merged
            → OnOk result ((self.new.waiting ≡ None) × HasCounted merged self.new.counted) }
    {
        if let Some(sums) = self.waiting.take() {
            count_rows(&mut self.counted, sums.rows())?;
        }
        Ok(())
    }

    /// What the names weigh in all rows, also in those that wait.
    fn totals(&mut self, alloc: Global) -> Result<LentTotals<'a>, NoMemory>
        requires { (merged : List WeightedStack) × AreCounted self.old.waiting self.old.counted merged }
        ensures { (merged : List WeightedStack) → AreCounted self.old.waiting self.old.counted merged
            → IfOk result (AreTotalsOf merged) }
    {
        self.count_waiting()?;
        Ok(self.counted.totals(alloc)?)
    }
}

impl<'a> LineTaker<'a> for Counting<'a> {
    ghost is_of = { λ counting rows. (merged : List WeightedStack) × AreMergedSoFar rows merged
        × AreCounted counting.waiting counting.counted merged };

    fn take_line(&mut self, line: &'a str, number: u64) -> Result<(), FoldedFault> {
        self.bytes = self.bytes.saturating_add(line.len());
        let Some(sums) = &mut self.waiting else {
            return count_line(&mut self.counted, line, number);
        };
        let before = sums.total();
        sums.sum_line(line, number)?;
        self.weighty = self
            .weighty
            .saturating_add(u64::from(sums.total() > before));
        if self.should_wait() {
            return Ok(());
        }
        Ok(self.count_waiting()?)
    }
}

/// What the names weigh in the rows that [`read_folded`](crate::read_folded) reads. Names are copied into `arena`, and
/// `hashing` says how they and stack texts are hashed.
///
/// # Errors
///
/// Those of [`read_folded`](crate::read_folded).
pub fn lent_totals<'a>(
    alloc: Global,
    hashing: Hashing,
    arena: &'a Bump,
    text: &'a [u8],
) -> Result<LentTotals<'a>, FoldedFault>
    ensures { GivesOfRows text.now AreTotalsOf result }
{
    let mut counting = Counting::new(alloc, hashing, arena);
    take_lines(text, &mut counting)?;
    Ok(counting.totals(alloc)?)
}

/// What the names weigh in the rows that [`read_folded`](crate::read_folded) reads. `hashing` says how names and stack
/// texts are hashed.
///
/// Lines of one stack text are counted together as long as that saves work. Memory is for the names, and for each
/// distinct stack text while these are at most three quarters of the lines that weigh something. Where they once are
/// more, past some thousand texts or a megabyte of lines, it is for no text of a later line.
///
/// # Errors
///
/// Those of [`read_folded`](crate::read_folded).
pub fn folded_totals(
    alloc: Global,
    hashing: Hashing,
    text: &[u8],
) -> Result<FrameTotals, FoldedFault>
    ensures { GivesOfRows text.now AreTotalsOf result }
{
    let arena = Bump::new(alloc);
    let lent = lent_totals(alloc, hashing, &arena, text)?;
    Ok(lent.keep(alloc)?)
}
