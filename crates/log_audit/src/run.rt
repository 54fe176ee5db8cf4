//! The run of logs that match a journal.

ghost use Rattle.std.specs.Prelude.{◌≡◌, map, IfOk, OnOk, IsPermutation, IsSorted};
ghost use Rattle.op_book.specs.Receipts.{key_of};
ghost use Rattle.log_audit.specs.Matching.{run_cmp, step_of};

use crate::receipts::Logged;
use op_book::{NoMemory, Op, Reply};
use std::alloc::Global;
use std::cmp::Ordering;
use std::marker::Model;

/// An operation of a run, with its reply and the place of its receipt. A contract sees what the operation and the reply
/// hold.
#[derive(Drop)]
pub struct RunStep {
    pub session: u32,
    /// The place of the receipt in the session's log, from 0.
    pub index: u64,
    pub op: Op,
    pub reply: Reply,
}

impl Model for RunStep {
    ghost use Rattle.log_audit.specs.Matching.{PlainStep};
    ghost use Rattle.op_book.specs.Operations.{plain_op, plain_reply};

    ghost Value = { PlainStep };

    ghost view = { λ s. record
        { session = s.session; index = s.index; op = plain_op s.op; reply = plain_reply s.reply } };
}

/// One order of all operations in which each was answered as the plain profile answers it.
#[derive(Drop)]
pub struct Run {
    steps: Vec<RunStep>,
}

impl Model for Run {
    ghost use Rattle.std.specs.Prelude.{List};
    ghost use Rattle.log_audit.specs.Matching.{PlainStep};

    ghost Value = { List PlainStep };

    ghost view = { λ r. r.steps.items };
}

impl Run {
    /// The steps, in order.
    pub fn steps(&self) -> &[RunStep]
        ensures { result.now ≡ self.now }
    {
        let steps: &Vec<RunStep> = &self.steps;
        steps.as_slice()
    }

    /// The steps of receipts in the order of a run.
    pub(crate) fn of(alloc: Global, ordered: &[Logged]) -> Result<Run, NoMemory>
        ensures { IfOk result (λ run. run ≡ map step_of ordered.now) }
    {
        let mut steps = Vec::new(alloc);
        for one in ordered {
            let receipt = one.receipt;
            steps.push(RunStep {
                session: one.session,
                index: one.index,
                op: receipt.op.share()?,
                reply: receipt.reply.share()?,
            })?;
        }
        Ok(Run { steps })
    }
}

/// Brings receipts into the order of a run.
pub(crate) fn sort_for_run(all: &mut Vec<Logged>) -> Result<(), NoMemory>
    ensures permutation { IsPermutation all.old.items all.new.items }
    ensures sorted { OnOk result (IsSorted run_cmp all.new.items) }
{
    all.sort_by(|left, right| compare(left, right))?;
    Ok(())
}

/// How two receipts stand in a run: by key, by session, and by their places in their logs.
fn compare(left: &Logged, right: &Logged) -> Ordering
    ensures { result ≡ run_cmp left.now right.now }
{
    let by_log = left
        .session
        .cmp(&right.session)
        .then(left.index.cmp(&right.index));
    key(left).cmp(&key(right)).then(by_log)
}

/// A receipt's place in a run.
fn key(one: &Logged) -> u128
    ensures { result ≡ key_of one.now.receipt }
{
    let receipt = one.receipt;
    let before = 2 * u128::from(receipt.at);
    if receipt.op.is_change() {
        before + 1
    } else {
        before
    }
}
