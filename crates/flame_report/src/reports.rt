//! Reports: the answer to a query over a call tree, or over a batch.

ghost use Rattle.std.specs.Prelude.{◌≡◌, ◌↔◌, ◌<◌, IfOk, IfSome, IsNone, IsTrue, List};
ghost use Rattle.profile_rows.specs.Aggregate.{aggregate_of};
ghost use Rattle.profile_rows.specs.declared.weighted_stacks.WeightedStack.{WeightedStack};
ghost use Rattle.call_tree.specs.State.{weights_of};
ghost use Rattle.flame_report.specs.Answers.{answer_of, kept_by, needs_order, value_answer_of};

use crate::answer::Answer;
use crate::layout::flame_of;
use crate::query::{Kind, Query};
use crate::top::top_list;
use basics::Items;
use call_tree::CallTree;
use folded_text::write_ordered;
use name_counts::kept_totals;
use ordered_rows::OrderedRows;
use profile_rows::{Batch, FrameTotals, Hashing, NoMemory, WeightedStacks};
use std::alloc::Global;

/// The rows that a query keeps.
fn kept_rows<'a>(rows: OrderedRows<'a>, query: &Query) -> OrderedRows<'a>
    ensures { result ≡ kept_by query.now rows.entry }
{
    if query.keeps_all() {
        return rows;
    }
    rows.keep(query.focus.as_ref(), query.ignore.as_ref())
}

/// A total or a top list of rows as they stand; nothing exactly where the answer needs them in order.
fn unordered_report(
    alloc: Global,
    hashing: Hashing,
    rows: &WeightedStacks,
    query: &Query,
) -> Result<Option<Answer>, NoMemory>
    ensures answer { IfOk result (λ found. IfSome found (λ answer. answer ≡ answer_of rows.now query.now)) }
    ensures none { IfOk result (λ found. IsNone found ↔ IsTrue (needs_order query.now.kind)) }
{
    let (focus, ignored) = (query.focus.as_ref(), query.ignore.as_ref());
    match query.kind {
        Kind::Total => Ok(Some(Answer::Total(rows.kept_total(focus, ignored)))),
        Kind::Top { rank, count } => {
            let totals = kept_totals(alloc, hashing, rows, focus, ignored)?;
            Ok(Some(Answer::Top(top_list(totals, rank, count)?)))
        }
        _ => Ok(None),
    }
}

/// The plain answer to a query over rows in order, whichever value it names. `hashing` says how names are hashed.
///
/// # Errors
///
/// `NoMemory`.
pub fn report_in_order(
    alloc: Global,
    hashing: Hashing,
    rows: OrderedRows<'_>,
    query: &Query,
) -> Result<Answer, NoMemory>
    ensures { IfOk result (λ answer. answer ≡ answer_of rows.entry query.now) }
{
    let kept = kept_rows(rows, query);
    match query.kind {
        Kind::Total => Ok(Answer::Total(kept.total())),
        Kind::Top { rank, count } => {
            let totals = kept.frame_totals(alloc, hashing)?;
            Ok(Answer::Top(top_list(totals, rank, count)?))
        }
        Kind::Flame { columns } => Ok(Answer::Flame(flame_of(alloc, hashing, &kept, columns)?)),
        Kind::Folded => Ok(Answer::Folded(Items::new(write_ordered(alloc, &kept)?))),
    }
}

/// The answer to a query over what a tree holds of the query's value: the plain answer over every list of rows that
/// adds up to the tree. A total and a top list of all rows are made without them.
///
/// # Errors
///
/// `NoMemory`.
pub fn report(alloc: Global, tree: &CallTree, query: &Query) -> Result<Answer, NoMemory>
    requires { query.now.value < tree.now.width }
    ensures { (rows : List WeightedStack) → aggregate_of rows ≡ weights_of tree.now query.now.value
        → IfOk result (λ answer. answer ≡ answer_of rows query.now) }
{
    match query.kind {
        Kind::Total if query.keeps_all() => Ok(Answer::Total(tree.total().value(query.value))),
        Kind::Top { rank, count } if query.keeps_all() => {
            let frames = tree.frame_totals(alloc, query.value)?;
            let total = tree.total().value(query.value);
            let top = top_list(FrameTotals { total, frames }, rank, count)?;
            Ok(Answer::Top(top))
        }
        _ => {
            let texts = tree.stack_texts(alloc, query.value)?;
            let rows = OrderedRows::of_texts(alloc, texts.as_slice())?;
            report_in_order(alloc, Hashing::fixed(), rows, query)
        }
    }
}

/// The plain answer to a query over the rows of a batch, by the query's value. A total and a top list of the first
/// value are made from the rows as they stand. `hashing` says how names are hashed.
///
/// # Errors
///
/// `NoMemory`.
pub fn report_of(
    alloc: Global,
    hashing: Hashing,
    batch: &Batch,
    query: &Query,
) -> Result<Answer, NoMemory>
    requires { query.now.value < batch.now.width }
    ensures { IfOk result (λ answer. answer ≡ value_answer_of batch.now.rows query.now) }
{
    if query.value == 0 {
        if let Some(answer) = unordered_report(alloc, hashing, batch.first(), query)? {
            return Ok(answer);
        }
    }
    let rows = batch.weighted_stacks(alloc, query.value)?;
    report_of_stacks(alloc, hashing, rows, query)
}

/// The plain answer to a query over rows of one value, whichever value the query names. A total and a top list are made
/// from the rows as they stand; for the other answers the rows are sorted, and no tree is made. `hashing` says how
/// names are hashed.
///
/// # Errors
///
/// `NoMemory`.
pub fn report_of_stacks(
    alloc: Global,
    hashing: Hashing,
    rows: WeightedStacks,
    query: &Query,
) -> Result<Answer, NoMemory>
    ensures { IfOk result (λ answer. answer ≡ answer_of rows query.now) }
{
    if let Some(answer) = unordered_report(alloc, hashing, &rows, query)? {
        return Ok(answer);
    }
    let rows = OrderedRows::of(alloc, rows)?;
    report_in_order(alloc, hashing, rows, query)
}
