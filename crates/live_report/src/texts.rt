//! The text of what was stored and audited.

ghost use Rattle.std.specs.Prelude.{ℕ, ◌≡◌, ◌+◌, ◌<◌, ◌++◌, List, IfErr, IfOk, MatchResult, None, OnOk, Some, cond};
ghost use Rattle.std.specs.Prelude.{option_map, true};
ghost use Rattle.std.specs.Arc.{arc_value};
ghost use Rattle.profile_rows.specs.Aggregate.{aggregate_of};
ghost use Rattle.profile_rows.specs.Values.{BatchState, Row, rows_at};
ghost use Rattle.call_tree.specs.State.{weights_of};
ghost use Rattle.live_report.specs.Dealing.{AreLogsOf, IsWarm};
ghost use Rattle.live_report.specs.Faults.{is_shortage};
ghost use Rattle.live_report.specs.Options.{changes_for, sessions_for};
ghost use Rattle.live_report.specs.Live.{count_line, folded_at, live_text_of, reports_of, titled_at, titled_from};

use crate::dealing::deal;
use crate::fault::LiveFault;
use crate::progress::{Progress, RowGate};
use crate::storing::{is_warm, store};
use call_tree::CallTree;
use flame_words::LiveOptions;
use folded_text::write_ordered;
use live_store::Blank;
use log_audit::audit_with;
use op_book::laws::additions_count_since_the_last_reset;
use op_book::{Journal, SessionLog};
use ordered_rows::OrderedRows;
use profile_rows::laws::aggregate_is_by_weights;
use profile_rows::{Batch, Hashing, NoMemory, Width};
use std::alloc::Global;
use std::marker::Brand;
use std::sync::{Arc, Wait};
use std::thread::Threads;

/// Stores the rows of a batch by several workers, audits what these were told, and returns the reports out of the store
/// with the number of audited operations. `progress` hears of each row that is in; those of a warm start aren't told.
/// `hashing` says how the store and the audit hash names.
///
/// # Errors
///
/// What kept a session from its work, or the audit from a run; `NoMemory`.
pub fn live_text<P: Progress, R: Threads + Wait + Sync>(
    rt: &R,
    alloc: Global,
    hashing: Hashing,
    progress: &P,
    batch: Arc<Batch>,
    options: LiveOptions,
) -> Result<Vec<u8>, LiveFault>
    ensures { IfOk result (λ text. text.items ≡ live_text_of options (arc_value batch)) }
{
    let (rows, width) = (batch.len(), batch.width());
    let warm = warm_batch(&batch, options)?;
    let lists = deal(alloc, batch, options.sessions())?;
    let blank = blank_for(alloc, hashing, rows, width, options)?;
    let gate = gate_for(progress, rows, options);
    let stored = store::<Brand, _, _>(rt, alloc, blank, warm, lists, &gate)?;
    let text = audited_text(alloc, hashing, &stored.journal, &stored.logs, options);
    drop(stored);
    text
}

/// The reports out of a journal, with the number of operations that its sessions' logs have, where these are together
/// one run.
fn audited_text(
    alloc: Global,
    hashing: Hashing,
    journal: &Journal,
    logs: &[SessionLog],
    options: LiveOptions,
) -> Result<Vec<u8>, LiveFault>
    ensures { (batch : BatchState) → batch.width ≡ journal.now.width → AreLogsOf options batch logs.now
        → IfOk result (λ text. text.items ≡ live_text_of options batch) }
{
    let run = audit_with(alloc, hashing, journal, logs)?;
    check_warm(options, logs)?;
    additions_count_since_the_last_reset();
    aggregate_is_by_weights();
    let mut text = reports(alloc, journal.tree(), options.all())?;
    let operations = run.steps().len();
    push_count(alloc, operations, &mut text)?;
    Ok(text)
}

/// What tells of so many rows.
fn gate_for<'a, P: Progress>(progress: &'a P, rows: usize, options: LiveOptions) -> RowGate<'a, P>
    ensures { (result.rows ≡ rows) × (result.workers ≡ options.sessions) }
{
    RowGate {
        progress,
        rows,
        workers: options.sessions() as usize,
    }
}

/// The batch for a warm start, where there is one.
fn warm_batch(batch: &Arc<Batch>, options: LiveOptions) -> Result<Option<Arc<Batch>>, NoMemory>
    ensures { IfOk result (λ warm.
        option_map arc_value warm ≡ cond options.warm (Some (arc_value batch.now)) None) }
{
    if options.warm() {
        Ok(Some(Arc::try_clone(batch)?))
    } else {
        Ok(None)
    }
}

/// Whether a warm start, where there is one, was over before anything else was stored.
fn check_warm(options: LiveOptions, logs: &[SessionLog]) -> Result<(), LiveFault>
    ensures { MatchResult result (λ _. options.warm ≡ true → IsWarm logs.now)
        (λ fault. (fault ≡ LiveFault.Warm) × (options.warm ≡ true) × (IsWarm logs.now → ⊥)) }
{
    if options.warm() && !is_warm(logs) {
        return Err(LiveFault::Warm);
    }
    Ok(())
}

/// A store for so many rows of this width and for a warm start.
fn blank_for(
    alloc: Global,
    hashing: Hashing,
    rows: usize,
    width: Width,
    options: LiveOptions,
) -> Result<Blank, LiveFault>
    ensures blank { IfOk result (λ blank. (blank.limit ≡ changes_for options rows)
        × (blank.sessions ≡ sessions_for options) × (blank.width ≡ width)) }
    ensures fault { IfErr result (λ fault. is_shortage fault ≡ true) }
{
    let workers = options.sessions();
    let (sessions, more) = if options.warm() {
        (workers + 1, 2)
    } else {
        (workers, 0)
    };
    let changes = (rows as u64).saturating_add(u64::from(workers) + more);
    let limit = u32::try_from(changes).unwrap_or(u32::MAX);
    Ok(Blank::make_with(alloc, hashing, limit, sessions, width)?)
}

/// Adds how many operations were audited.
fn push_count(alloc: Global, operations: usize, text: &mut Vec<u8>) -> Result<(), NoMemory>
    ensures { OnOk result (text.new.items ≡ text.old.items ++ count_line operations) }
{
    let line = format!(in alloc; "audited {operations} operations\n")?;
    text.extend_from_slice(line.as_bytes())?;
    Ok(())
}

/// The folded report of each value below its number, where all are asked for, else of the first.
fn reports(alloc: Global, tree: &CallTree, all: bool) -> Result<Vec<u8>, NoMemory>
    ensures { (batch : BatchState) → batch.width ≡ tree.now.width
        → ((value : ℕ) → aggregate_of (rows_at value batch.rows) ≡ weights_of tree.now value)
        → IfOk result (λ text. text.items ≡ reports_of all batch) }
{
    let width = tree.width().get();
    if all {
        titled_reports(alloc, tree, width)
    } else {
        folded_report(alloc, tree, 0)
    }
}

/// The folded report of each value below its number.
fn titled_reports(alloc: Global, tree: &CallTree, width: u32) -> Result<Vec<u8>, NoMemory>
    requires { width ≡ tree.now.width }
    ensures { (rows : List Row) → ((value : ℕ) → aggregate_of (rows_at value rows) ≡ weights_of tree.now value)
        → IfOk result (λ text. text.items ≡ titled_from 0 tree.now.width rows) }
{
    let mut text = Vec::new(alloc);
    for value in 0..width {
        push_titled(alloc, tree, value, &mut text)?;
    }
    Ok(text)
}

/// Adds the folded report of a value below its number.
fn push_titled(
    alloc: Global,
    tree: &CallTree,
    value: u32,
    text: &mut Vec<u8>,
) -> Result<(), NoMemory>
    requires { value < tree.now.width }
    ensures { (rows : List Row) → aggregate_of (rows_at value rows) ≡ weights_of tree.now value
        → OnOk result (text.new.items ≡ text.old.items ++ titled_at value rows) }
{
    let title = format!(in alloc; "value {value}\n")?;
    text.extend_from_slice(title.as_bytes())?;
    let report = folded_report(alloc, tree, value)?;
    text.extend_from_slice(report.as_slice())?;
    Ok(())
}

/// The folded report of a value.
fn folded_report(alloc: Global, tree: &CallTree, value: u32) -> Result<Vec<u8>, NoMemory>
    requires { value < tree.now.width }
    ensures { (rows : List Row) → aggregate_of (rows_at value rows) ≡ weights_of tree.now value
        → IfOk result (λ text. text.items ≡ folded_at value rows) }
{
    let texts = tree.stack_texts(alloc, value)?;
    let rows = OrderedRows::of_texts(alloc, texts.as_slice())?;
    write_ordered(alloc, &rows)
}
