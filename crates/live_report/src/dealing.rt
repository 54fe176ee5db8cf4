//! Dealing the rows of a batch to workers.

ghost use Rattle.std.specs.Prelude.{ℕ, ◌≡◌, ◌+◌, ◌<◌, ◌++◌, [], get_or, length, map, replicate};
ghost use Rattle.std.specs.Prelude.{sum_by, IfOk, OnOk};
ghost use Rattle.std.specs.Arc.{arc_value};
ghost use Rattle.op_book.specs.Operations.{PlainOp, ask, plain_op};
ghost use Rattle.profile_rows.specs.OwnedRows.{plain_row};
ghost use Rattle.live_report.specs.Dealing.{AreDealt, addition, total_at, totals_from, turns_of, weigh};

use flame_report::{Kind, Query};
use op_book::Op;
use profile_rows::{Batch, NoMemory, OwnedRow, Width};
use std::alloc::Global;
use std::sync::Arc;

/// What each of so many workers is to do: row after row goes to the next of them, each as a batch of its own, and at
/// the end each asks for the total of each value.
pub(crate) fn deal(
    alloc: Global,
    batch: Arc<Batch>,
    sessions: u32,
) -> Result<Vec<Vec<Op>>, NoMemory>
    requires { 0 < sessions }
    ensures { IfOk result
        (λ lists. AreDealt (arc_value batch) sessions (map (λ list. map plain_op list.items) lists.items)) }
{
    let mut lists = empty_lists(alloc, sessions)?;
    let batch = own_batch(batch)?;
    let width = batch.width();
    let rows = batch.into_rows(alloc)?;
    deal_rows(alloc, width, rows, &mut lists)?;
    with_totals(alloc, width, lists)
}

/// The batch itself where it has no other owner, and else one that shares its names.
fn own_batch(batch: Arc<Batch>) -> Result<Batch, NoMemory>
    ensures { IfOk result (λ own. own ≡ arc_value batch) }
{
    match Arc::try_unwrap(batch) {
        Ok(own) => Ok(own),
        Err(shared) => shared.share(),
    }
}

/// So many lists without operations.
fn empty_lists(alloc: Global, count: u32) -> Result<Vec<Vec<Op>>, NoMemory>
    ensures { IfOk result (λ lists. map (λ list. map plain_op list.items) lists.items ≡ replicate count []) }
{
    let mut lists = Vec::with_capacity(alloc, count as usize)?;
    for _ in 0..count {
        lists.push(Vec::new(alloc))?;
    }
    Ok(lists)
}

/// Adds row after row to the next of some lists, from the first on.
fn deal_rows(
    alloc: Global,
    width: Width,
    rows: Vec<OwnedRow>,
    lists: &mut Vec<Vec<Op>>,
) -> Result<(), NoMemory>
    requires { 0 < length lists.old.items }
    ensures count { length lists.new.items ≡ length lists.old.items }
    ensures dealt { OnOk result ((weight : PlainOp → ℕ)
        → weigh weight (map (λ list. map plain_op list.items) lists.new.items)
        ≡ weigh weight (map (λ list. map plain_op list.items) lists.old.items)
        + sum_by weight (map (addition width) (map plain_row rows.items))) }
    ensures turns { OnOk result ((worker : ℕ) → worker < length lists.old.items
        → get_or (map (λ list. map plain_op list.items) lists.new.items) worker []
        ≡ get_or (map (λ list. map plain_op list.items) lists.old.items) worker []
        ++ map (addition width) (turns_of (length lists.old.items) worker (map plain_row rows.items))) }
{
    let mut worker = 0;
    for row in rows {
        let op = addition_of(alloc, width, row)?;
        lists[worker].push(op)?;
        worker = (worker + 1) % lists.len();
    }
    Ok(())
}

/// The addition of a row, as a batch of its own.
fn addition_of(alloc: Global, width: Width, row: OwnedRow) -> Result<Op, NoMemory>
    ensures { IfOk result (λ op. plain_op op ≡ addition width (plain_row row)) }
{
    let OwnedRow { stack, weights } = row;
    let mut one = Batch::with_capacity(alloc, width, 1)?;
    match one.push(stack, weights) {
        Ok(()) => Ok(Op::Add(Arc::new(alloc, one)?)),
        Err(_) => Err(NoMemory),
    }
}

/// Lists that ask at their ends for the total of each value.
fn with_totals(alloc: Global, width: Width, lists: Vec<Vec<Op>>) -> Result<Vec<Vec<Op>>, NoMemory>
    ensures { IfOk result (λ asked. map (λ list. map plain_op list.items) asked.items
        ≡ map (λ list. map plain_op list.items ++ totals_from 0 width) lists.items) }
{
    let mut asked = Vec::with_capacity(alloc, lists.len())?;
    for list in lists {
        let mut list = list;
        ask_totals(alloc, width, &mut list)?;
        asked.push(list)?;
    }
    Ok(asked)
}

/// Asks for the total of each value at the end of a list.
fn ask_totals(alloc: Global, width: Width, list: &mut Vec<Op>) -> Result<(), NoMemory>
    ensures { OnOk result
        (map plain_op list.new.items ≡ map plain_op list.old.items ++ totals_from 0 width) }
{
    for value in 0..width.get() {
        let op = total_of(alloc, value)?;
        list.push(op)?;
    }
    Ok(())
}

/// The operation that asks for the total of a value.
fn total_of(alloc: Global, value: u32) -> Result<Op, NoMemory>
    ensures { IfOk result (λ op. plain_op op ≡ total_at value) }
{
    Ok(Op::Ask(Arc::new(alloc, total_query(value))?))
}

/// A question for the total of a value.
pub(crate) fn total_query(value: u32) -> Query
    ensures { ask result ≡ total_at value }
{
    Query {
        focus: None,
        ignore: None,
        value,
        kind: Kind::Total,
    }
}
