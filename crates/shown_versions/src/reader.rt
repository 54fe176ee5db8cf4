//! A reader of versions that knows which store they are of.

ghost use Rattle.std.specs.Prelude.{◌≡◌, ◌<◌, ◌⊎◌, IfOk, MatchResult};
ghost use Rattle.std.specs.Arc.{arc_value};
ghost use Rattle.left_right.specs.Sides.{view as known};
ghost use Rattle.op_book.specs.Books.{receipt_after};
ghost use Rattle.op_book.specs.Operations.{answered, ask};
ghost use Rattle.shown_versions.specs.Views.{IsAnswerAfter, IsOf};

use crate::front::Front;
use crate::name::StoreName;
use crate::version::Version;
use crate::version_rule::{Published, Sees, View};
use core::mem::replace_with;
use flame_report::{Answer, Kind, NoMemory, Query, report};
use left_right::reader::Reader;
use op_book::{BookFault, Op, Receipt, Reply};
use std::alloc::Global;
use std::marker::PhantomData;
use std::sync::Arc;

/// A reader of the versions of the store of this name. It gives its place back when it ends.
#[derive(Drop)]
pub struct VersionReader<N: StoreName> {
    pub(crate) reader: Reader<Version, View, Published>,
    pub(crate) of: PhantomData<N>,
    pub(crate) ghost named: { IsOf (known reader.place) N.history N.width },
}

/// The receipt of a report, and the changes that it was made after.
#[derive(Drop)]
pub struct SeenReport<N: StoreName> {
    pub receipt: Receipt,
    pub front: Front<N>,
}

/// The answer to a query over a version of this store, and the changes that it is after.
fn answer_over<N: StoreName>(
    alloc: Global,
    version: &Version,
    query: &Arc<Query>,
) -> Result<(Answer, Front<N>), BookFault>
    requires value { (arc_value query.now).value < version.now.width }
    requires history { version.now.seen.book ≡ N.history }
    ensures { MatchResult result (λ made. IsAnswerAfter made.1 (arc_value query.now) made.0)
        (λ fault. fault ≡ BookFault.NoMemory) }
{
    let answer = report(alloc, version.tree(), query)?;
    Ok((answer, Front::of(version.count(), version.seen())))
}

/// The answer over the version that a reader enters, and the reader, which has left it. The total of all rows is told
/// before it leaves, since that takes no longer than a share; for any other report it shares the version and leaves.
fn answer_entered<N: StoreName>(
    alloc: Global,
    reader: Reader<Version, View, Published>,
    query: &Arc<Query>,
) -> (
    Reader<Version, View, Published>,
    Result<(Answer, Front<N>), BookFault>,
)
    requires named { IsOf (known reader.place) N.history N.width }
    requires value { (arc_value query.now).value < N.width }
    ensures named { IsOf (known result.0.place) N.history N.width }
    ensures answer { MatchResult result.1 (λ made. IsAnswerAfter made.1 (arc_value query.now) made.0)
        (λ fault. (fault ≡ BookFault.NoMemory) ⊎ (fault ≡ BookFault.Version)) }
{
    let reading = match reader.enter_as::<Sees>() {
        Ok(reading) => reading,
        Err(reader) => return (reader, Err(BookFault::Version)),
    };
    if query.kind == Kind::Total && query.keeps_all() {
        let made = answer_over(alloc, reading.get(), query);
        return (reading.leave(), made);
    }
    let shared = reading.get().share();
    let reader = reading.leave();
    match shared {
        Ok(version) => (reader, answer_over(alloc, &version, query)),
        Err(_) => (reader, Err(BookFault::NoMemory)),
    }
}

/// The receipt of an answer after so many changes.
fn receipt_of(
    alloc: Global,
    query: &Arc<Query>,
    answer: Answer,
    at: u64,
) -> Result<Receipt, NoMemory>
    ensures { IfOk result (λ receipt.
        receipt ≡ record { op = ask (arc_value query.now); reply = answered answer; at = at }) }
{
    Ok(Receipt {
        op: Op::Ask(Arc::try_clone(query)?),
        reply: Reply::Answered(Arc::new(alloc, answer)?),
        at,
    })
}

impl<N: StoreName> VersionReader<N> {
    /// A report over the version that is shown, which is left before the report is made: so the writer never waits for
    /// one. The total of all rows alone, which takes no longer than to share the version, is told before.
    ///
    /// # Errors
    ///
    /// `Version` where no version could be entered; `NoMemory`.
    pub fn report(&mut self, alloc: Global, query: &Arc<Query>) -> Result<SeenReport<N>, BookFault>
        requires { (arc_value query.now).value < N.width }
        ensures { MatchResult result
            (λ made. made.receipt ≡ receipt_after made.front (ask (arc_value query.now)))
            (λ fault. (fault ≡ BookFault.NoMemory) ⊎ (fault ≡ BookFault.Version)) }
    {
        let (answer, front) = replace_with(
            &mut self.reader,
            (),
            |reader, _|
                requires named { IsOf (known reader.place) N.history N.width }
                requires value { (arc_value query.now).value < N.width }
            { answer_entered::<N>(alloc, reader, query) },
        )?;
        let receipt = receipt_of(alloc, query, answer, front.len())?;
        Ok(SeenReport { receipt, front })
    }
}
