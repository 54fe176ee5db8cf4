//! What a closed book or store leaves: its journal, the tree of what counts, and audits of logs against it.

use crate::operations::{place_of, receipt_of};
use crate::scripts::{Checker, Made, Scene, Script, Words, Wrong, run_steps};
use flame_report::Items;
use log_audit::{AuditFault, Run, audit, audit_with};
use op_book::{Entry, Journal, Op, Receipt, SessionLog};
use stack_text::{Hashing, write_stacks};

/// A journal, and what the sessions were told that had the store.
#[derive(Drop)]
struct Closed<'a> {
    journal: &'a Journal,
    logs: Vec<SessionLog>,
}

/// Runs the steps after `close`.
pub fn run_closed(
    checker: &mut Checker,
    script: &mut Script,
    journal: &Journal,
    logs: Vec<SessionLog>,
) {
    let mut closed = Closed { journal, logs };
    run_steps(checker, script, &mut closed);
    drop(closed);
}

impl Scene for Closed<'_> {
    fn run(&mut self, words: Words, input: &[u8], made: &mut Made) {
        let journal = self.journal;
        match words.word(0) {
            "state" => tell_state(journal, made),
            "journal" => tell_entries(journal.entries(), made),
            "tree" => tell_tree(journal, made),
            "share" => share_log(&mut self.logs, words, made),
            "audit" if input.is_empty() => audit_logs(words, journal, &self.logs, made),
            "audit" => audit_input(words, journal, input, made),
            _ => made.fail(Wrong::Command),
        }
    }
}

/// Adds how many entries there are, what counts, and how many sessions there were.
fn tell_state(journal: &Journal, made: &mut Made) {
    let (entries, sessions) = (journal.entries().len(), journal.sessions());
    let total = journal.tree().total();
    made.say(&format_args!(
        "{entries} entries, {:?}, {sessions} sessions",
        total.values()
    ));
}

/// Adds each entry, and the rows of an addition below it, by their first value.
fn tell_entries(entries: &[Entry], made: &mut Made) {
    for entry in entries {
        let (session, turn) = (entry.session, entry.turn);
        let place = place_of(&entry.reply, made);
        made.say(&format_args!("{session}.{turn} place {place}"));
        tell_change(&entry.op, made);
    }
}

fn tell_change(op: &Op, made: &mut Made) {
    match op {
        Op::Add(batch) => made.add_made(write_stacks(made.alloc(), batch.first())),
        Op::Reset => made.say(&"reset"),
        Op::Ask(_) => made.say(&"ask"),
    }
}

/// Adds the rows that count, by their first value.
fn tell_tree(journal: &Journal, made: &mut Made) {
    match journal.tree().rows(made.alloc()) {
        Ok(rows) => {
            made.add_made(write_stacks(made.alloc(), rows.first()));
            drop(rows);
        }
        Err(_) => made.fail(Wrong::NoMemory),
    }
}

/// `share 0`: the first log stands once more, after all others.
fn share_log(logs: &mut Vec<SessionLog>, words: Words, made: &mut Made) {
    let place: usize = made.number(words.word(1));
    let Some(log) = logs.get(place) else {
        return made.fail(Wrong::Missing);
    };
    match log.share(made.alloc()) {
        Ok(log) => made.keep(logs, log),
        Err(_) => made.fail(Wrong::NoMemory),
    }
    made.say(&format_args!("{} logs", logs.len()));
}

fn audit_input(words: Words, journal: &Journal, input: &[u8], made: &mut Made) {
    let logs = logs_of(input, made);
    audit_logs(words, journal, &logs, made);
    drop(logs);
}

/// The logs that the input spells, one in each line: `1: add b 2 at 1, ask total says 3 at 2`.
fn logs_of(input: &[u8], made: &mut Made) -> Vec<SessionLog> {
    let mut logs = Vec::new(made.alloc());
    for line in made.text_of(input).lines() {
        let log = log_of(line, made);
        made.keep(&mut logs, log);
    }
    logs
}

fn log_of(line: &str, made: &mut Made) -> SessionLog {
    let (session, receipts) = made.halves(line, ':');
    SessionLog {
        session: made.number(session),
        receipts: Items::new(receipts_of(receipts, made)),
    }
}

fn receipts_of(text: &str, made: &mut Made) -> Vec<Receipt> {
    let mut receipts = Vec::new(made.alloc());
    for part in text.split(',') {
        if !part.is_empty() {
            if let Some(receipt) = receipt_of(part.trim(), made) {
                made.keep(&mut receipts, receipt);
            }
        }
    }
    receipts
}

/// Adds what an audit says of logs. Where its steps aren't only counted, two more audits hash names from one start, and
/// a third from another: what these say is added where it differs.
fn audit_logs(words: Words, journal: &Journal, logs: &[SessionLog], made: &mut Made) {
    let alloc = made.alloc();
    tell_verdict(words, audit(alloc, journal, logs), made);
    if words.has("counted") {
        return;
    }
    let len = made.bytes().len();
    for key in [7, 7, 8] {
        let verdict = audit_with(alloc, Hashing::of_key(key), journal, logs);
        tell_verdict(words, verdict, made);
        made.drop_repeated(len);
    }
}

/// Adds the steps of a run in a line, or, `listed`, each in its own; where they are `counted` only their number.
fn tell_verdict(words: Words, verdict: Result<Run, AuditFault>, made: &mut Made) {
    match verdict {
        Ok(run) => {
            tell_run(words, &run, made);
            drop(run);
        }
        Err(fault) => made.refuse(&fault),
    }
}

fn tell_run(words: Words, run: &Run, made: &mut Made) {
    let count = run.steps().len();
    if words.has("counted") {
        return made.say(&format_args!("{count} steps"));
    }
    made.print(&format_args!("{count} steps:"));
    tell_steps(run, if words.has("listed") { '\n' } else { ' ' }, made);
}

/// Adds the session of each step, and its place in the session's log.
fn tell_steps(run: &Run, between: char, made: &mut Made) {
    for step in run.steps() {
        made.print(&format_args!("{between}{}.{}", step.session, step.index));
    }
    made.push(b'\n');
}

/// `same`: whether two receipts tell of the same operation, and of the same reply.
pub fn compare_receipts(input: &[u8], made: &mut Made) {
    let receipts = receipts_of(made.text_of(input), made);
    match receipts.as_slice() {
        [first, second] => compare(first, second, made),
        _ => made.fail(Wrong::Line),
    }
    drop(receipts);
}

fn compare(first: &Receipt, second: &Receipt, made: &mut Made) {
    let (op, reply) = (first.op == second.op, first.reply == second.reply);
    made.say(&format_args!("operation {op}, reply {reply}"));
}
