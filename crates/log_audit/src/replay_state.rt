//! What an audit keeps while it goes through the receipts in the order of a run: totals always, and a tree where a
//! report needs one.

ghost use Rattle.std.specs.Prelude.{ℕ, ◌≡◌, ◌<◌, ◌≤◌, ◌+◌, ◌^◌, ◌++◌, ◌∷◌, [], IsTrue, All, List, length, take, IfOk};
ghost use Rattle.profile_rows.specs.Rows.{total_of};
ghost use Rattle.profile_rows.specs.Values.{Row, rows_at};
ghost use Rattle.call_tree.specs.Plans.{IsEmptyTree};
ghost use Rattle.flame_report.specs.Answers.{value_answer_of};
ghost use Rattle.flame_report.specs.declared.answer.Answer.TheVariants as answers;
ghost use Rattle.log_audit.specs.Matching.{LoggedReceipt};
ghost use Rattle.op_book.specs.Operations.{FitsWidth, PlainOp, plain_op, profile_after};
ghost use Rattle.log_audit.specs.Replays.{AreLight, IsFollowed, IsTreeOf, ops_in};

use crate::receipts::Logged;
use call_tree::Grower;
use flame_report::{Answer, Kind, NoMemory, Query, report};
use op_book::Op;
use profile_rows::laws::{aggregate_of_more_rows, sums_are_those_of_the_aggregate};
use profile_rows::{Hashing, Weights, Width};
use std::alloc::Global;

/// What was followed of the receipts: the totals of what counts after them, and a tree of what counts after the first
/// of them. A tree grows only for a report that needs one, and then by all that it is behind.
#[derive(Drop)]
pub(crate) struct ReplayState {
    /// The total of each value.
    totals: Weights,
    grower: Grower,
    /// How many of the receipts the tree is of.
    grown: usize,
}

impl ReplayState {
    /// No receipt was followed yet.
    pub(crate) fn new(
        alloc: Global,
        hashing: Hashing,
        width: Width,
    ) -> Result<ReplayState, NoMemory>
        ensures { (all : List LoggedReceipt) → IfOk result (IsFollowed all 0 width) }
    {
        Ok(ReplayState {
            totals: Weights::zero(width),
            grower: Grower::with_hashing(alloc, hashing, width)?,
            grown: 0,
        })
    }

    /// The answer to a query over what counts after so many receipts, which were followed.
    pub(crate) fn answer(
        self,
        alloc: Global,
        ordered: &[Logged],
        count: usize,
        query: &Query,
    ) -> Result<(ReplayState, Answer), NoMemory>
        requires fitted { All (λ one. FitsWidth self.grower.width one.receipt.op) ordered.now }
        requires light { AreLight (ops_in ordered.now) }
        requires within { count ≤ length ordered.now }
        requires followed { IsFollowed ordered.now count self.grower.width self }
        requires asked { query.now.value < self.grower.width }
        ensures answer { IfOk result
            (λ told. told.1 ≡ value_answer_of (profile_after (ops_in (take count ordered.now))) query.now) }
        ensures followed { IfOk result (λ told. IsFollowed ordered.now count self.grower.width told.0) }
    {
        if asks_total(query) {
            let total = self.totals.value(query.value);
            return Ok((self, Answer::Total(total)));
        }
        let grown = self.grown_to(alloc, ordered, count)?;
        let answer = report(alloc, grown.grower.tree(), query)?;
        Ok((grown, answer))
    }

    /// The same with a tree of all that was followed.
    fn grown_to(
        self,
        alloc: Global,
        ordered: &[Logged],
        count: usize,
    ) -> Result<ReplayState, NoMemory>
        requires fitted { All (λ one. FitsWidth self.grower.width one.receipt.op) ordered.now }
        requires light { AreLight (ops_in ordered.now) }
        requires within { count ≤ length ordered.now }
        requires followed { IsFollowed ordered.now count self.grower.width self }
        ensures followed { IfOk result (IsFollowed ordered.now count self.grower.width) }
        ensures tree { IfOk result (λ next. IsTreeOf (ops_in (take count ordered.now)) next.grower) }
    {
        let ReplayState {
            totals,
            mut grower,
            grown,
        } = self;
        for place in grown..count {
            let one = &ordered[place];
            let receipt = one.receipt;
            grower = with_operation(grower, alloc, &receipt.op)?;
        }
        Ok(ReplayState {
            totals,
            grower,
            grown: count,
        })
    }

    /// What was followed, with the next receipt. After a reset nothing counts, and the tree has nothing to grow by.
    pub(crate) fn after(
        self,
        alloc: Global,
        ordered: &[Logged],
        at: usize,
    ) -> Result<ReplayState, NoMemory>
        requires fitted { All (λ one. FitsWidth self.grower.width one.receipt.op) ordered.now }
        requires light { AreLight (ops_in ordered.now) }
        requires within { at < length ordered.now }
        requires followed { IsFollowed ordered.now at self.grower.width self }
        ensures { IfOk result (IsFollowed ordered.now (at + 1) self.grower.width) }
    {
        let ReplayState {
            totals,
            grower,
            grown,
        } = self;
        let one = &ordered[at];
        let receipt = one.receipt;
        match &receipt.op {
            Op::Add(batch) => Ok(ReplayState {
                totals: totals.plus(&batch.total()),
                grower,
                grown,
            }),
            Op::Reset => Ok(ReplayState {
                totals: Weights::zero(totals.width()),
                grower: emptied(grower, alloc)?,
                grown: at + 1,
            }),
            Op::Ask(_) => Ok(ReplayState {
                totals,
                grower,
                grown,
            }),
        }
    }
}

/// Whether a query asks for the total of all rows, which takes no tree.
fn asks_total(query: &Query) -> bool
    ensures { IsTrue result → (rows : List Row)
        → value_answer_of rows query.now ≡ answers.Total (total_of (rows_at query.now.value rows)) }
{
    matches!(query.kind, Kind::Total) && query.keeps_all()
}

/// The grower whose tree is that of one operation more. Nobody else owns its pages, so they change in place.
fn with_operation(grower: Grower, alloc: Global, op: &Op) -> Result<Grower, NoMemory>
    requires fits { FitsWidth grower.width (plain_op op.now) }
    requires light { (operations : List PlainOp) × IsTreeOf operations grower × ((value : ℕ)
        → total_of (rows_at value (profile_after (operations ++ plain_op op.now ∷ []))) < 2 ^ 63) }
    ensures tree { (operations : List PlainOp) → IsTreeOf operations grower
        → IfOk result (IsTreeOf (operations ++ plain_op op.now ∷ [])) }
    ensures width { IfOk result (λ next. next.width ≡ grower.width) }
{
    match op {
        Op::Add(batch) => {
            sums_are_those_of_the_aggregate();
            aggregate_of_more_rows();
            grower.with_batch(alloc, batch)
        }
        Op::Reset => emptied(grower, alloc),
        Op::Ask(_) => Ok(grower),
    }
}

/// The grower with nothing in its tree.
fn emptied(grower: Grower, alloc: Global) -> Result<Grower, NoMemory>
    ensures { IfOk result (IsEmptyTree grower.width) }
{
    let mut next = grower;
    let plan = next.plan_reset(alloc)?;
    next.credit(plan);
    Ok(next)
}
