//! What is asked of a book, a store or a worker, as a script spells it: `add main;a 3`, `reset`, `ask total`.

use crate::queries::{kind_name, total_answer};
use crate::rows::{numbers_of, push_row};
use crate::scripts::{Made, Words, Wrong};
use flame_report::Query;
use op_book::{Op, Receipt, Reply};
use stack_text::{Batch, Weights, read_folded};
use std::sync::Arc;

/// `add main;a 3`, `add a 1 0` of two values, `add` of the folded text in the input, `reset`, `ask total`.
pub fn op_of(words: Words, input: &[u8], made: &mut Made) -> Option<Op> {
    match words.word(0) {
        "add" => Some(Op::Add(batch_of(words.rest(1), input, made)?)),
        "reset" => Some(Op::Reset),
        "ask" => Some(Op::Ask(query_of(words, made)?)),
        _ => made.wanted(None, Wrong::Command),
    }
}

/// The row that the words spell, or where there are none the rows of the input.
pub fn batch_of(words: Words, input: &[u8], made: &mut Made) -> Option<Arc<Batch>> {
    let alloc = made.alloc();
    let batch = match words.text {
        "" => made.done(read_folded(alloc, input)),
        _ => row_of(words, made),
    };
    made.done(Arc::new(alloc, batch?))
}

/// The batch of one row, whose frames are joined by semicolons.
fn row_of(words: Words, made: &mut Made) -> Option<Batch> {
    let weights = Weights::make(numbers_of(words.rest(1).text, made).as_slice());
    let weights = made.wanted(weights, Wrong::Line)?;
    let mut batch = Batch::new(made.alloc(), weights.width());
    push_row(&mut batch, words.word(0), weights, made);
    Some(batch)
}

/// `ask total`, `ask top by cum count 3`, `ask flame columns 5`, `ask folded focus main ignore b value 1`.
pub fn query_of(words: Words, made: &mut Made) -> Option<Arc<Query>> {
    let query = crate::queries::query_of(words, kind_name(words), made);
    let alloc = made.alloc();
    made.done(Arc::new(alloc, query))
}

/// What a session was told: `add a 1 at 0`, `reset at 1`, `ask total says 3 at 2`.
pub(crate) fn receipt_of(text: &str, made: &mut Made) -> Option<Receipt> {
    let (text, at) = text.rsplit_once(" at ").unwrap_or(("", ""));
    let at = made.number(at);
    let op = op_of(Words { text }, b"", made);
    let (op, reply) = op.zip(reply_of(Words { text }, at, made))?;
    Some(Receipt { op, reply, at })
}

/// The total that `says` gives, or else the place of a change.
fn reply_of(words: Words, place: u64, made: &mut Made) -> Option<Reply> {
    let Some(total) = words.after("says") else {
        return Some(Reply::Placed(place));
    };
    let (alloc, total) = (made.alloc(), made.number(total));
    let answer = made.done(Arc::new(alloc, total_answer(total)));
    Some(Reply::Answered(answer?))
}

/// The place that a change is told. Only a report has an answer.
pub(crate) fn place_of(reply: &Reply, made: &mut Made) -> u64 {
    match reply {
        Reply::Placed(place) => *place,
        Reply::Answered(_) => {
            made.fail(Wrong::Missing);
            0
        }
    }
}
