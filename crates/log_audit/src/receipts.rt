//! The receipts of all logs, and what is looked for in them one by one.

ghost use Rattle.std.specs.Prelude.{◌≡◌, ◌↔◌, ◌<◌, ◌+◌, ◌++◌, IsTrue, All, None, length, IfOk, MatchOption, OnOk};
ghost use Rattle.op_book.specs.Receipts.{HasEntry, Precedes};
ghost use Rattle.log_audit.specs.Matching.{HasOneLogEach, IsFirstWithout, IsInOrder, IsKnown, IsSecondLog, logged};
ghost use Rattle.log_audit.specs.Matching.{logged_from};

use op_book::{Entry, Journal, NoMemory, Op, Receipt, SessionLog};
use std::alloc::Global;
use std::collections::BTreeSet;
use std::marker::Model;

/// A receipt in the logs.
#[derive(Drop)]
pub(crate) struct Logged<'a> {
    /// Its number among all receipts.
    pub(crate) number: usize,
    pub(crate) session: u32,
    /// Its place in its log.
    pub(crate) index: u64,
    /// The receipt before it in its log.
    pub(crate) earlier: Option<&'a Receipt>,
    pub(crate) receipt: &'a Receipt,
}

impl<'a> Model for Logged<'a> {
    ghost use Rattle.std.specs.Option.{option_map};
    ghost use Rattle.log_audit.specs.Matching.{LoggedReceipt};

    ghost Value = { LoggedReceipt };

    ghost view = { λ l. record {
      number = l.number;
      session = l.session;
      index = l.index;
      earlier = option_map (λ earlier. earlier.now) l.earlier;
      receipt = l.receipt.now;
    } };
}

/// Where a receipt stands.
#[derive(Clone, Copy, Debug, PartialEq, Eq)]
pub(crate) struct Place {
    pub(crate) session: u32,
    pub(crate) index: u64,
}

/// The receipts of all logs, log after log.
pub(crate) fn all_receipts<'a>(
    alloc: Global,
    logs: &'a [SessionLog],
) -> Result<Vec<Logged<'a>>, NoMemory>
    ensures { IfOk result (λ all. all.items ≡ logged logs.now) }
{
    let mut all = Vec::new(alloc);
    for log in logs {
        push_log(&mut all, log)?;
    }
    Ok(all)
}

/// The receipts of a log after those of the logs before it.
fn push_log<'a>(all: &mut Vec<Logged<'a>>, log: &'a SessionLog) -> Result<(), NoMemory>
    ensures { OnOk result (all.new.items
        ≡ all.old.items ++ logged_from (length all.old.items) log.now.session 0 None log.now.receipts) }
{
    let mut earlier = None;
    for (index, receipt) in log.receipts.as_slice().iter().enumerate() {
        all.push(Logged {
            number: all.len(),
            session: log.session,
            index: index as u64,
            earlier,
            receipt,
        })?;
        earlier = Some(receipt);
    }
    Ok(())
}

/// The session of the first log that has an earlier one of its session.
pub(crate) fn second_log(alloc: Global, logs: &[SessionLog]) -> Result<Option<u32>, NoMemory>
    ensures { IfOk result
        (λ found. MatchOption found (HasOneLogEach logs.now) (λ session. IsSecondLog logs.now session)) }
{
    let mut sessions = BTreeSet::new(alloc);
    for log in logs {
        if sessions.contains(&log.session) {
            return Ok(Some(log.session));
        }
        let _ = sessions.insert(log.session)?;
    }
    Ok(None)
}

/// The first receipt that isn't of the journal.
pub(crate) fn first_unknown(journal: &Journal, all: &[Logged]) -> Option<Place>
    ensures { MatchOption result (All (IsKnown journal.now) all.now)
        (λ place. IsFirstWithout (IsKnown journal.now) all.now place.session place.index) }
{
    for one in all {
        if !is_known(journal, one) {
            return Some(Place {
                session: one.session,
                index: one.index,
            });
        }
    }
    None
}

/// Whether a receipt is of the journal.
fn is_known(journal: &Journal, one: &Logged) -> bool
    ensures { IsTrue result ↔ IsKnown journal.now one.now }
{
    if one.session >= journal.sessions() {
        return false;
    }
    let receipt = one.receipt;
    match &receipt.op {
        Op::Ask(query) => {
            receipt.at <= journal.entries().len() as u64 && query.value < journal.width().get()
        }
        _ => has_entry(journal.entries(), one.session, receipt),
    }
}

/// Whether a change has its entry.
fn has_entry(entries: &[Entry], session: u32, receipt: &Receipt) -> bool
    ensures { IsTrue result ↔ HasEntry entries.now session receipt.now }
{
    match entries.get(receipt.at as usize) {
        Some(entry) => {
            entry.session == session && entry.op == receipt.op && entry.reply == receipt.reply
        }
        None => false,
    }
}

/// The first receipt that can't stand after the one before it in its log.
pub(crate) fn first_out_of_order(all: &[Logged]) -> Option<Place>
    ensures { MatchOption result (All IsInOrder all.now)
        (λ place. IsFirstWithout IsInOrder all.now place.session place.index) }
{
    for one in all {
        if !is_in_order(one) {
            return Some(Place {
                session: one.session,
                index: one.index,
            });
        }
    }
    None
}

/// Whether a receipt can stand after the one before it in its log.
fn is_in_order(one: &Logged) -> bool
    ensures { IsTrue result ↔ IsInOrder one.now }
{
    match one.earlier {
        Some(earlier) => precedes(earlier, one.receipt),
        None => true,
    }
}

/// Whether a receipt may follow another in a log: it stands after it in each run, or both are reports at one place.
fn precedes(earlier: &Receipt, later: &Receipt) -> bool
    ensures { IsTrue result ↔ Precedes earlier.now later.now }
{
    earlier.at < later.at || earlier.at == later.at && !earlier.op.is_change()
}
