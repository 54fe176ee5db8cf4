//! What a session of a store does in a step.

use library_steps::{Made, Words, Wrong, add_answer, add_stacks, batch_of, op_of, query_of};
use profile_store::{
    Answer, Batch, BookFault, Op, Placed, Receipt, Reply, Session, StoreName, Told, Window,
};
use std::alloc::Global;
use std::sync::{Arc, Wait};

/// What a session is to do, and the input for it.
#[derive(Clone, Copy)]
pub(crate) struct Deed<'a> {
    pub(crate) words: Words<'a>,
    pub(crate) input: &'a [u8],
}

/// What a session does: `number`, `hear 1`, `receipt 1`, `times 50 add a 1`, `take`, or an operation.
pub(crate) fn take<N: StoreName, R: Wait>(
    rt: &R,
    session: &mut Session<'_, N>,
    told: &mut Vec<Told<N>>,
    deed: Deed,
    made: &mut Made,
) {
    match deed.words.word(0) {
        "number" => tell_number(session, made),
        "hear" => hear(session, told.as_slice(), deed.words, made),
        "receipt" => {
            let place: usize = made.number(deed.words.word(1));
            tell_receipt(session.log().get(place), deed.words, made);
        }
        "times" => {
            let times = made.number(deed.words.word(1));
            add_times(rt, session, deed, times, made);
        }
        "take" => take_window(rt, session, told, made),
        _ => operate(rt, session, told, deed, made),
    }
}

pub(crate) fn tell_number<N: StoreName>(session: &Session<'_, N>, made: &mut Made) {
    made.say(&format_args!("session {}", session.number()));
}

fn hear<N: StoreName>(
    session: &mut Session<'_, N>,
    told: &[Told<N>],
    words: Words,
    made: &mut Made,
) {
    match told.get(made.number::<usize>(words.word(1))) {
        Some(told) => {
            session.hear(told);
            made.say(&"heard");
        }
        None => made.fail(Wrong::Missing),
    }
}

fn operate<N: StoreName, R: Wait>(
    rt: &R,
    session: &mut Session<'_, N>,
    told: &mut Vec<Told<N>>,
    deed: Deed,
    made: &mut Made,
) {
    if let Some(op) = op_of(deed.words, deed.input, made) {
        match run_op(rt, made.alloc(), session, op) {
            Ok(Some(placed)) => keep(placed, told, made),
            Ok(None) => tell_receipt(session.log().last(), deed.words, made),
            Err(fault) => made.refuse(&fault),
        }
    }
}

/// Runs an operation. A change is placed.
pub(crate) fn run_op<N: StoreName, R: Wait>(
    rt: &R,
    alloc: Global,
    session: &mut Session<'_, N>,
    op: Op,
) -> Result<Option<Placed<N>>, BookFault> {
    match op {
        Op::Add(batch) => add(rt, alloc, session, batch).map(Some),
        Op::Reset => session.reset(rt, alloc).map(Some),
        Op::Ask(query) => {
            let fault = session.ask(alloc, &query).err();
            drop(query);
            match fault {
                Some(fault) => Err(fault),
                None => Ok(None),
            }
        }
    }
}

fn add<N: StoreName, R: Wait>(
    rt: &R,
    alloc: Global,
    session: &mut Session<'_, N>,
    batch: Arc<Batch>,
) -> Result<Placed<N>, BookFault> {
    match session.add(rt, alloc, batch) {
        Ok(placed) => Ok(placed),
        Err(refused) => {
            let fault = refused.fault;
            drop(refused);
            Err(fault)
        }
    }
}

/// Adds the place of a reset, and the rows that counted there.
fn take_window<N: StoreName, R: Wait>(
    rt: &R,
    session: &mut Session<'_, N>,
    told: &mut Vec<Told<N>>,
    made: &mut Made,
) {
    match session.take(rt, made.alloc()) {
        Ok(Window { placed, tree }) => {
            keep(placed, told, made);
            add_stacks(&tree, 0, made);
            drop(tree);
        }
        Err(fault) => made.refuse(&fault),
    }
}

/// Adds the place of a change. What it tells is kept.
fn keep<N: StoreName>(placed: Placed<N>, told: &mut Vec<Told<N>>, made: &mut Made) {
    made.say(&format_args!("place {}", placed.place));
    made.keep(told, placed.told);
}

/// Adds the answer that a receipt has, and after how many changes it is: on the line of a total.
fn tell_receipt(receipt: Option<&Receipt>, words: Words, made: &mut Made) {
    let Some(receipt) = receipt else {
        return made.fail(Wrong::Missing);
    };
    if let Reply::Answered(answer) = &receipt.reply {
        add_answer(words, answer, made);
        made.end_line(b' ');
    }
    made.say(&format_args!("at {}", receipt.at));
}

/// The first session's answer, while the second adds rows.
pub(crate) fn hold<N: StoreName, R: Wait>(
    rt: &R,
    first: &mut Session<'_, N>,
    second: &mut Session<'_, N>,
    deed: Deed,
    made: &mut Made,
) {
    let times = made.number(deed.words.word(0));
    if let Some(query) = query_of(deed.words.rest(1), made) {
        match first.ask(made.alloc(), &query) {
            Ok(answer) => hold_answer(rt, answer, second, deed, times, made),
            Err(fault) => made.refuse(&fault),
        }
        drop(query);
    }
}

fn hold_answer<N: StoreName, R: Wait>(
    rt: &R,
    answer: &Answer,
    second: &mut Session<'_, N>,
    deed: Deed,
    times: u64,
    made: &mut Made,
) {
    let mut added = Made::new(made.alloc());
    add_times(rt, second, deed, times, &mut added);
    add_answer(deed.words, answer, made);
    made.add(added.bytes());
    made.fail_as(&added);
}

/// A session adds the rows of a deed so often. It tells how many receipts it then has.
fn add_times<N: StoreName, R: Wait>(
    rt: &R,
    session: &mut Session<'_, N>,
    deed: Deed,
    times: u64,
    made: &mut Made,
) {
    if let Some(batch) = batch_of(deed.words.rest(3), deed.input, made) {
        add_often(rt, made.alloc(), session, &batch, times);
        drop(batch);
    }
    made.say(&format_args!("{} receipts", session.log().len()));
}

/// A session adds a batch so often, as long as it isn't refused.
pub(crate) fn add_often<N: StoreName, R: Wait>(
    rt: &R,
    alloc: Global,
    session: &mut Session<'_, N>,
    batch: &Arc<Batch>,
    times: u64,
) {
    for _ in 0..times {
        let Ok(shared) = Arc::try_clone(batch) else {
            return;
        };
        if session.add(rt, alloc, shared).is_err() {
            return;
        }
    }
}
