//! The audit: whether the logs of sessions match a journal.

ghost use Rattle.std.specs.Prelude.{◌≡◌, List, MatchResult};
ghost use Rattle.log_audit.specs.Matching.{AreKnown, AreOrdered, IsAuditedRun, IsFirstAuditFault, LogsMatch};
ghost use Rattle.op_book.specs.declared.entry.SessionLog.{SessionLog};

use crate::fault::AuditFault;
use crate::receipts::{Logged, Place, all_receipts, first_out_of_order, first_unknown, second_log};
use crate::replay::{first_missing, first_wrong};
use crate::run::{Run, sort_for_run};
use op_book::{Journal, SessionLog};
use profile_rows::Hashing;
use std::alloc::Global;

/// Whether the logs of sessions match a journal, and if they do the run of them: one order of all their operations in
/// which each was answered as the plain profile answers it.
///
/// # Errors
///
/// The first [`AuditFault`] exactly where the logs don't match; `NoMemory`.
pub fn audit(alloc: Global, journal: &Journal, logs: &[SessionLog]) -> Result<Run, AuditFault>
    ensures audited { MatchResult result (IsAuditedRun journal.now logs.now)
        (IsFirstAuditFault journal.now logs.now) }
    ensures accepted { LogsMatch journal.now logs.now
        → MatchResult result (λ _. Unit {0}) (λ fault. fault ≡ AuditFault.NoMemory) }
{
    audit_with(alloc, Hashing::fixed(), journal, logs)
}

/// As [`audit`], and `hashing` says how the tree that follows the journal hashes names.
///
/// # Errors
///
/// Those of [`audit`].
pub fn audit_with(
    alloc: Global,
    hashing: Hashing,
    journal: &Journal,
    logs: &[SessionLog],
) -> Result<Run, AuditFault>
    ensures audited { MatchResult result (IsAuditedRun journal.now logs.now)
        (IsFirstAuditFault journal.now logs.now) }
    ensures accepted { LogsMatch journal.now logs.now
        → MatchResult result (λ _. Unit {0}) (λ fault. fault ≡ AuditFault.NoMemory) }
{
    let ordered = ordered_receipts(alloc, journal, logs)?;
    run_in_order(alloc, hashing, journal, &ordered)
}

/// The run of logs whose receipts are in its order.
fn run_in_order(
    alloc: Global,
    hashing: Hashing,
    journal: &Journal,
    ordered: &[Logged],
) -> Result<Run, AuditFault>
    requires { (logs : List SessionLog) × AreOrdered journal.now logs ordered.now }
    ensures { (logs : List SessionLog) → AreOrdered journal.now logs ordered.now
        → MatchResult result (IsAuditedRun journal.now logs) (IsFirstAuditFault journal.now logs) }
{
    let entries = journal.entries();
    if let Some(entry) = first_missing(entries.len() as u64, ordered) {
        return Err(AuditFault::Missing { entry });
    }
    if let Some(wrong) = first_wrong(alloc, hashing, journal.width(), ordered)? {
        return Err(AuditFault::WrongAnswer {
            session: wrong.session,
            index: wrong.index,
        });
    }
    Ok(Run::of(alloc, ordered)?)
}

/// The receipts of logs in the order of a run, where each session has one log, each receipt is of the journal and each
/// log in order.
fn ordered_receipts<'a>(
    alloc: Global,
    journal: &Journal,
    logs: &'a [SessionLog],
) -> Result<Vec<Logged<'a>>, AuditFault>
    ensures { MatchResult result (λ all. AreOrdered journal.now logs.now all.items)
        (IsFirstAuditFault journal.now logs.now) }
{
    let mut all = known_receipts(alloc, journal, logs)?;
    sort_for_run(&mut all)?;
    Ok(all)
}

/// The receipts of logs, of which each session has one, where each is of the journal and each log in order.
fn known_receipts<'a>(
    alloc: Global,
    journal: &Journal,
    logs: &'a [SessionLog],
) -> Result<Vec<Logged<'a>>, AuditFault>
    ensures { MatchResult result (λ all. AreKnown journal.now logs.now all.items)
        (IsFirstAuditFault journal.now logs.now) }
{
    if let Some(session) = second_log(alloc, logs)? {
        return Err(AuditFault::TwoLogs { session });
    }
    let all = all_receipts(alloc, logs)?;
    if let Some(Place { session, index }) = first_unknown(journal, &all) {
        return Err(AuditFault::Stranger { session, index });
    }
    if let Some(Place { session, index }) = first_out_of_order(&all) {
        return Err(AuditFault::Order { session, index });
    }
    Ok(all)
}
