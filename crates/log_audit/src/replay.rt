//! The receipts in the order of a run, gone through once: which change is missing, and which answer is wrong.

ghost use Rattle.std.specs.Prelude.{ℕ, ◌≡◌, ◌↔◌, ◌<◌, ◌≤◌, ◌⊎◌, Some, None, true, IsTrue, All, length, IfOk};
ghost use Rattle.std.specs.Prelude.{MatchOption};
ghost use Rattle.log_audit.specs.Matching.{IsFirstMissing, IsReceived, LoggedReceipt};
ghost use Rattle.op_book.specs.Operations.{FitsWidth, answered, plain_reply};
ghost use Rattle.log_audit.specs.Replays.{AreLight, AreNumbered, AreRising, IsFollowed, IsLowestOf, IsPlainAt, ops_in};

use crate::receipts::Logged;
use crate::replay_state::ReplayState;
use flame_report::{Answer, NoMemory};
use op_book::{Op, Reply};
use profile_rows::{Hashing, Width};
use std::alloc::Global;

/// A report with a wrong answer: its number among all receipts, and where it stands.
#[derive(Clone, Copy, Debug, PartialEq, Eq)]
pub(crate) struct Wrong {
    pub(crate) number: usize,
    pub(crate) session: u32,
    pub(crate) index: u64,
}

/// The first of so many changes that isn't among the receipts, which are in the order of a run.
pub(crate) fn first_missing(count: u64, ordered: &[Logged]) -> Option<u64>
    requires rising { AreRising ordered.now }
    requires within { All (λ one. one.receipt.at ≤ count) ordered.now }
    ensures { MatchOption result
        (AreNumbered ordered.now × ((place : ℕ) → place < count → IsReceived ordered.now place))
        (λ place. IsFirstMissing count ordered.now place) }
{
    let mut done = 0;
    for one in ordered {
        let receipt = one.receipt;
        if receipt.at > done {
            return Some(done);
        }
        if receipt.op.is_change() {
            done += 1;
        }
    }
    if done < count { Some(done) } else { None }
}

/// The report of the lowest number whose answer isn't the plain one after the changes before it. The receipts are
/// followed in order, and each report is answered again in between.
pub(crate) fn first_wrong(
    alloc: Global,
    hashing: Hashing,
    width: Width,
    ordered: &[Logged],
) -> Result<Option<Wrong>, NoMemory>
    requires fitted { All (λ one. FitsWidth width one.receipt.op) ordered.now }
    requires light { AreLight (ops_in ordered.now) }
    ensures { IfOk result (λ lowest. IsLowestOf ordered.now (length ordered.now) lowest) }
{
    let mut followed = ReplayState::new(alloc, hashing, width)?;
    let mut lowest = None;
    for (at, one) in ordered.iter().enumerate() {
        let (same, right) = is_right(followed, alloc, ordered, at)?;
        if !right {
            lowest = lower(lowest, one);
        }
        followed = same.after(alloc, ordered, at)?;
    }
    Ok(lowest)
}

/// Whether the receipt at a place is of a change, or its reply the plain answer after those before it, which were
/// followed; with these, as the answer left them.
fn is_right(
    followed: ReplayState,
    alloc: Global,
    ordered: &[Logged],
    at: usize,
) -> Result<(ReplayState, bool), NoMemory>
    requires fitted { All (λ one. FitsWidth followed.grower.width one.receipt.op) ordered.now }
    requires light { AreLight (ops_in ordered.now) }
    requires within { at < length ordered.now }
    requires followed { IsFollowed ordered.now at followed.grower.width followed }
    ensures right { (otherwise : LoggedReceipt)
        → IfOk result (λ told. IsTrue told.1 ↔ IsPlainAt ordered.now at otherwise) }
    ensures followed { IfOk result (λ told. IsFollowed ordered.now at followed.grower.width told.0) }
{
    let one = &ordered[at];
    let receipt = one.receipt;
    match &receipt.op {
        Op::Ask(query) => {
            let (same, answer) = followed.answer(alloc, ordered, at, query)?;
            Ok((same, is_told(&receipt.reply, &answer)))
        }
        Op::Add(_) => Ok((followed, true)),
        Op::Reset => Ok((followed, true)),
    }
}

/// Whether a reply tells this answer.
fn is_told(reply: &Reply, answer: &Answer) -> bool
    ensures { IsTrue result ↔ (plain_reply reply.now ≡ answered answer.now) }
{
    match reply {
        Reply::Answered(told) => **told == *answer,
        Reply::Placed(_) => false,
    }
}

/// The one of the lower number.
fn lower(lowest: Option<Wrong>, one: &Logged) -> Option<Wrong>
    ensures { MatchOption lowest
        (result ≡ Some (record { number = one.now.number; session = one.now.session; index = one.now.index }))
        (λ wrong. ((wrong.number ≤ one.now.number) × (result ≡ Some wrong)) ⊎ ((one.now.number < wrong.number)
        × (result ≡ Some
        (record { number = one.now.number; session = one.now.session; index = one.now.index })))) }
{
    match lowest {
        Some(wrong) if wrong.number <= one.number => Some(wrong),
        _ => Some(Wrong {
            number: one.number,
            session: one.session,
            index: one.index,
        }),
    }
}
