//! A book that is driven by hand: `book limit 10 sessions 2 width 1`, and a step for each turn of a session.

ghost use Rattle.std.specs.Prelude.{◌≡◌};

use crate::journals::run_closed;
use crate::operations::{op_of, place_of};
use crate::rows::width_of;
use crate::scripts::{Checker, Made, Scene, Script, Step, Words, Wrong, run_steps};
use call_tree::CallTree;
use op_book::{Book, Change, Op, Ready, Receipt};

/// Opens a book, and runs the steps that drive it.
pub fn run_scene(checker: &mut Checker, script: &mut Script, step: &Step) {
    let book = book_of(step.words, &mut checker.made);
    checker.settle(step);
    if let Some(book) = book {
        run_book(checker, script, book);
    }
}

fn book_of(words: Words, made: &mut Made) -> Option<Book> {
    let limit = made.number_after(words, "limit", 10);
    let sessions = made.number_after(words, "sessions", 1);
    let width = width_of(words, made);
    if sessions == 0 || sessions > 64 {
        made.fail(Wrong::Command);
        return None;
    }
    let book = Book::new(made.alloc(), limit, sessions, width);
    made.done(book)
}

/// A book under way.
#[derive(Drop)]
struct Opened {
    book: Book,
}

fn run_book(checker: &mut Checker, script: &mut Script, book: Book) {
    let mut opened = Opened { book };
    run_steps(checker, script, &mut opened);
    let (no_logs, journal) = (Vec::new(checker.alloc), opened.book.into_journal());
    run_closed(checker, script, &journal, no_logs);
    drop(journal);
}

impl Scene for Opened {
    /// `0.1 add a 1`, `0.1 reset`: the second change of session 0. `prepare` before it tells of the totals around the
    /// change, and `drop` lets a prepared one go.
    fn run(&mut self, words: Words, input: &[u8], made: &mut Made) {
        let book = &mut self.book;
        if words.word(0) == "state" {
            return tell_state(book, made);
        }
        let turn = turn_of(words.word(0), made);
        match words.word(1) {
            "prepare" => prepare(book, turn, op_of(words.rest(2), input, made), true, made),
            "drop" => prepare(book, turn, op_of(words.rest(2), input, made), false, made),
            _ => change(book, turn, op_of(words.rest(1), input, made), made),
        }
    }
}

fn tell_state(book: &Book, made: &mut Made) {
    let (entries, total) = (book.entries().len(), book.tree().total());
    made.say(&format_args!("{entries} entries, {:?}", total.values()));
}

/// A session, and how many changes it made before.
#[derive(Clone, Copy)]
struct Turn {
    session: u32,
    turn: u64,
}

fn turn_of(word: &str, made: &mut Made) -> Turn {
    let (session, turn) = made.halves(word, '.');
    Turn {
        session: made.number(session),
        turn: made.number(turn),
    }
}

fn change(book: &mut Book, turn: Turn, op: Option<Op>, made: &mut Made) {
    let (alloc, Turn { session, turn }) = (made.alloc(), turn);
    match op {
        Some(Op::Add(batch)) => match book.add(alloc, session, turn, batch) {
            Ok(receipt) => tell_receipt(receipt, made),
            Err(refused) => {
                made.refuse(&refused.fault);
                drop(refused);
            }
        },
        Some(Op::Reset) => match book.reset(alloc, session, turn) {
            Ok(receipt) => tell_receipt(receipt, made),
            Err(fault) => made.refuse(&fault),
        },
        _ => made.fail(Wrong::Command),
    }
}

fn tell_receipt(receipt: Receipt, made: &mut Made) {
    let (place, at) = (place_of(&receipt.reply, made), receipt.at);
    made.say(&format_args!("place {place} at {at}"));
    drop(receipt);
}

/// Prepares a change, which is then made or let go.
fn prepare(book: &mut Book, turn: Turn, op: Option<Op>, is_made: bool, made: &mut Made) {
    match &op {
        Some(Op::Add(batch)) => prepare_change(book, turn, Change::Add(batch), is_made, made),
        Some(Op::Reset) => prepare_change(book, turn, Change::Reset, is_made, made),
        _ => made.fail(Wrong::Command),
    }
    drop(op);
}

fn prepare_change(book: &mut Book, turn: Turn, change: Change, is_made: bool, made: &mut Made) {
    match book.prepare(made.alloc(), turn.session, turn.turn, change) {
        Ok(ready) if is_made => settle(book, ready, made),
        Ok(ready) => {
            made.say(&format_args!("ready {}", total_of(ready.next())));
            drop(ready);
        }
        Err(fault) => made.refuse(&fault),
    }
}

/// Adds what a book weighs, what it will weigh after a change, and what it weighs once the change is made.
fn settle(book: &mut Book, ready: Ready, made: &mut Made)
    requires { ready.before ≡ book.old }
{
    let (before, next) = (total_of(book.tree()), total_of(ready.next()));
    let receipt = book.settle(ready);
    let (after, at) = (total_of(book.tree()), receipt.at);
    made.say(&format_args!("before {before}, ready {next}, after {after}, at {at}"));
    drop(receipt);
}

fn total_of(tree: &CallTree) -> u64 {
    tree.total().values()[0]
}
