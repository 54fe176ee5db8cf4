//! Reports: one query over one list of rows, answered in each public way.

use crate::batches::Asked;
use crate::queries::{KINDS, add_answer, counts_names, kind_name, query_of, top_answer};
use crate::scripts::{Made, Wrong};
use crate::trees;
use flame_report::{Answer, Query, report_in_order, report_of, report_of_stacks};
use stack_text::{
    Batch, FrameTotals, Hashing, LineSums, WeightedStacks, folded_totals, kept_totals, merge_lines,
    read_ordered,
};
use std::alloc::Global;

/// `report total`, `report top by cum count 2`, `report folded`, `report flame columns 5`, `report layout columns 5`,
/// and `report each columns 5`; with `focus a`, `ignore b` and `value 1` where they are wanted. With `alone` it goes
/// only the ways that count names.
pub(crate) fn run(asked: Asked, batch: &Batch, made: &mut Made) {
    let kind = kind_name(asked.words);
    if kind != "each" {
        return answer(asked, batch, kind, made);
    }
    for kind in KINDS {
        answer(asked, batch, kind, made);
    }
}

/// A query, the rows that it is over, and the answer that each way has to give.
#[derive(Clone, Copy)]
pub(crate) struct Given<'a> {
    asked: Asked<'a>,
    pub(crate) batch: &'a Batch,
    pub(crate) query: &'a Query,
    pub(crate) answer: &'a Answer,
}

/// Adds the answer, and tells of the ways that answer otherwise.
fn answer(asked: Asked, batch: &Batch, kind: &str, made: &mut Made) {
    let query = query_of(asked.words, kind, made);
    if query.value >= batch.width().get() {
        return made.fail(Wrong::Missing);
    }
    match report_of(made.alloc(), Hashing::fixed(), batch, &query) {
        Ok(answer) => {
            let given = Given {
                asked,
                batch,
                query: &query,
                answer: &answer,
            };
            add_answer(asked.words, &answer, made);
            made.end_line(b'\n');
            agree_on_all_ways(given, made);
            drop(answer);
        }
        Err(_) => made.fail(Wrong::NoMemory),
    }
    drop(query);
}

/// The other ways.
fn agree_on_all_ways(given: Given, made: &mut Made) {
    let (alloc, batch, query) = (made.alloc(), given.batch, given.query);
    if query.value >= batch.width().get() {
        return made.fail(Wrong::Missing);
    }
    let again = report_of(alloc, given.asked.hashing, batch, query);
    made.compare("report_of", again, given.answer);
    match batch.weighted_stacks(alloc, query.value) {
        Ok(stacks) => agree_on_rows(given, &stacks, made),
        Err(_) => made.fail(Wrong::NoMemory),
    }
}

/// The ways over rows by the value that the query names.
fn agree_on_rows(given: Given, stacks: &WeightedStacks, made: &mut Made) {
    if counts_names(given.query) {
        agree_on_names(given, stacks, made);
    }
    if given.asked.words.has("alone") {
        return;
    }
    agree_on_stacks(given, "report_of_stacks", stacks.share(), made);
    if given.asked.has_folded_text() {
        agree_on_text(given, made);
        agree_on_order(given, made);
    }
    trees::agree_on_report(given, made);
}

/// The answer over rows of one value, whichever value the query names.
fn agree_on_stacks<E: Drop>(
    given: Given,
    way: &str,
    stacks: Result<WeightedStacks, E>,
    made: &mut Made,
) {
    let (alloc, hashing) = (made.alloc(), given.asked.hashing);
    match stacks {
        Ok(stacks) => made.compare(
            way,
            report_of_stacks(alloc, hashing, stacks, given.query),
            given.answer,
        ),
        Err(_) => made.fail(Wrong::Missing),
    }
}

/// The answer over the merged lines of folded text, also of two pieces.
fn agree_on_text(given: Given, made: &mut Made) {
    let (alloc, hashing, text) = (made.alloc(), given.asked.hashing, given.asked.input);
    agree_on_stacks(
        given,
        "merge_lines",
        merge_lines(alloc, hashing, text),
        made,
    );
    let sums = sums_of_pieces(alloc, hashing, text);
    agree_on_stacks(given, "LineSums", sums.stacks(), made);
    drop(sums);
}

/// The answer over folded text that is read in order.
fn agree_on_order(given: Given, made: &mut Made) {
    let (alloc, hashing, text) = (made.alloc(), given.asked.hashing, given.asked.input);
    match read_ordered(alloc, hashing, text) {
        Ok(ordered) => made.compare(
            "report_in_order",
            report_in_order(alloc, hashing, ordered, given.query),
            given.answer,
        ),
        Err(_) => made.fail(Wrong::Missing),
    }
}

/// The sums of folded text that comes in two pieces.
fn sums_of_pieces(alloc: Global, hashing: Hashing, text: &[u8]) -> LineSums {
    let mut sums = LineSums::new(alloc, hashing);
    let end = text.iter().position(|byte| *byte == b'\n');
    let (first, second) = text.split_at(end.map_or(0, |end| end + 1));
    for piece in [first, second] {
        sums.add(piece);
    }
    sums
}

/// The ways that count names, where a list of these is asked for.
fn agree_on_names(given: Given, stacks: &WeightedStacks, made: &mut Made) {
    let (alloc, hashing, query) = (made.alloc(), given.asked.hashing, given.query);
    let (focus, ignored) = (query.focus.as_ref(), query.ignore.as_ref());
    let totals = kept_totals(alloc, hashing, stacks, focus, ignored);
    agree_on_top(given, "kept_totals", totals, made);
    if given.asked.has_folded_text() && query.keeps_all() {
        let totals = folded_totals(alloc, hashing, given.asked.input);
        agree_on_top(given, "folded_totals", totals, made);
    }
}

fn agree_on_top<E: Drop>(given: Given, way: &str, totals: Result<FrameTotals, E>, made: &mut Made) {
    match totals {
        Ok(totals) => made.compare(way, top_answer(given.query, totals), given.answer),
        Err(_) => made.fail(Wrong::Missing),
    }
}
