//! Top lists: the names that weigh most, and their text.

ghost use Rattle.std.specs.Prelude.{◌≡◌, List, IfOk, OnOk, IsSorted, IsPermutation, string_bytes, ◌++◌};
ghost use Rattle.profile_rows.specs.declared.weighted_stacks.WeightedStack.{WeightedStack};
ghost use Rattle.profile_rows.specs.TopList.{AreSumsOf, AreTotalsOf, chosen_weight, top_cmp, top_line, top_list_of};
ghost use Rattle.profile_rows.specs.TopList.{top_text_of};
ghost use Rattle.flame_report.specs.Answers.{ranking_of, top_of};
ghost use Rattle.flame_report.specs.First.{AreFirst};

use crate::answer::Top;
use crate::query::Rank;
use basics::Items;
use name_counts::{LentTotal, LentTotals, keep_totals};
use profile_rows::laws::top_list_is_front_of_sorted;
use profile_rows::{FrameTotal, FrameTotals, NoMemory};
use std::alloc::{AllocError, Global};
use std::cmp::Ordering;

/// The weight that `rank` chooses.
fn ranked_weight(frame: &LentTotal, rank: Rank) -> u64
    ensures { result ≡ chosen_weight (ranking_of rank) frame.now }
{
    match rank {
        Rank::Flat => frame.flat(),
        Rank::Cum => frame.cum(),
    }
}

/// By falling weight, and names of one weight by their bytes.
fn compare(left: &LentTotal, right: &LentTotal, rank: Rank) -> Ordering
    ensures { result ≡ top_cmp (ranking_of rank) left.now right.now }
{
    match ranked_weight(right, rank).cmp(&ranked_weight(left, rank)) {
        Ordering::Equal => left.name().cmp(right.name()),
        decided => decided,
    }
}

/// The first `count` names by the weight that `rank` chooses, in no order. Only these are copied.
fn select_names(
    mut list: Vec<LentTotal>,
    rank: Rank,
    count: usize,
) -> Result<Vec<FrameTotal>, NoMemory>
    ensures { IfOk result (λ first. AreFirst (top_cmp (ranking_of rank)) count list.entry.items first.items) }
{
    let alloc = *list.allocator();
    if count < list.len() {
        let (first, _, _) = list.select_nth_unstable_by(
            count,
            |left, right| compare(left, right, rank),
        );
        return keep_totals(alloc, first);
    }
    keep_totals(alloc, list.as_slice())
}

/// Sorts names by the weight that `rank` chooses.
fn sort_names(list: &mut Vec<FrameTotal>, rank: Rank) -> Result<(), AllocError>
    ensures permutation { IsPermutation list.old.items list.new.items }
    ensures sorted { OnOk result (IsSorted (top_cmp (ranking_of rank)) list.new.items) }
{
    list.sort_by(|left, right| compare(&LentTotal::of(left), &LentTotal::of(right), rank))?;
    Ok(())
}

/// The first `count` names by the weight that `rank` chooses, in order. The others are left out before the sort, so its
/// time goes by `count`.
fn rank_names(list: Vec<LentTotal>, rank: Rank, count: u32) -> Result<Vec<FrameTotal>, NoMemory>
    ensures { (rows : List WeightedStack) → AreSumsOf rows list.entry.items
        → IfOk result (λ first. first.items ≡ top_list_of (ranking_of rank) count rows) }
{
    let mut first = select_names(list, rank, count as usize)?;
    sort_names(&mut first, rank)?;
    top_list_is_front_of_sorted();
    Ok(first)
}

/// The top list of rows, from what their names weigh: copies of the first `count` names by the weight that `rank`
/// chooses.
///
/// # Errors
///
/// `NoMemory`.
pub fn top_of_lent(totals: LentTotals, rank: Rank, count: u32) -> Result<Top, NoMemory>
    ensures { (rows : List WeightedStack) → AreTotalsOf rows totals.entry
        → IfOk result (λ top. top ≡ top_of rank count rows) }
{
    let (total, names) = totals.into_parts();
    let rows = Items::new(rank_names(names, rank, count)?);
    Ok(Top { total, rows })
}

/// The top list of rows, from what their names weigh: the first `count` names by the weight that `rank` chooses.
///
/// # Errors
///
/// `NoMemory`.
pub fn top_list(totals: FrameTotals, rank: Rank, count: u32) -> Result<Top, NoMemory>
    ensures { (rows : List WeightedStack) → AreTotalsOf rows totals
        → IfOk result (λ top. top ≡ top_of rank count rows) }
{
    let lent = LentTotals::of(*totals.frames.allocator(), &totals)?;
    top_of_lent(lent, rank, count)
}

/// Adds the line of a name.
fn push_line(text: &mut String, row: &FrameTotal) -> Result<(), AllocError>
    ensures { OnOk result (string_bytes text.new ≡ string_bytes text.old ++ top_line row.now) }
{
    writeln!(text, "{} {} {}", row.flat, row.cum, row.name.text())
}

/// A top list as text: the word `total`, a space and the total, then a line for each name: its flat weight, its
/// cumulative weight and the name, with a space between. Each line ends with a line feed.
///
/// # Errors
///
/// `NoMemory`.
pub fn top_text(alloc: Global, top: &Top) -> Result<Vec<u8>, NoMemory>
    ensures { IfOk result (λ text. text.items ≡ top_text_of top.now.total top.now.rows) }
{
    let mut text = format!(in alloc; "total {}\n", top.total)?;
    for row in top.rows.as_slice() {
        push_line(&mut text, row)?;
    }
    Ok(text.into_bytes())
}
