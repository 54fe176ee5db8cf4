//! The commands by their first words.

use crate::faults::tell_faults;
use crate::program::Run;
use crate::store::run_store;
use crate::streams::Streams;
use crate::{hashes, live, sources};
use library_steps::{
    Checker, Made, Script, Step, Words, Wrong, compare_receipts, run_book, run_tree,
};
use std::random::RandomSource;
use std::sync::Wait;
use std::thread::Threads;
use std::time::Clock;

/// Runs the steps of a script.
pub(crate) fn run_script<R: Threads + Wait + RandomSource + Clock + Sync>(
    rt: &R,
    checker: &mut Checker,
    file: &str,
    text: &[u8],
) {
    match std::str::from_utf8(text) {
        Ok(text) => run_blocks(rt, checker, &mut Script::new(file, text)),
        Err(_) => checker.refuse_script(file),
    }
    checker.end(file);
}

fn run_blocks<R: Threads + Wait + RandomSource + Clock + Sync>(
    rt: &R,
    checker: &mut Checker,
    script: &mut Script,
) {
    for _ in 0..script.most_steps() {
        if !script.find_block() {
            return;
        }
        run_block(rt, checker, script);
    }
}

/// Runs the steps of a block. Their streams behave as the steps before in the block say.
fn run_block<R: Threads + Wait + RandomSource + Clock + Sync>(
    rt: &R,
    checker: &mut Checker,
    script: &mut Script,
) {
    let mut streams = Streams::new();
    for _ in 0..script.most_steps() {
        let Some(step) = script.next_step() else {
            return;
        };
        checker.begin(&step);
        run_step(rt, checker, script, &mut streams, &step);
    }
}

/// Runs a step, or all steps of a scene that it opens, as a store: those after it in the block.
fn run_step<R: Threads + Wait + RandomSource + Clock + Sync>(
    rt: &R,
    checker: &mut Checker,
    script: &mut Script,
    streams: &mut Streams,
    step: &Step,
) {
    match step.words.word(0) {
        "tree" => run_tree(checker, script, step),
        "book" => run_book(checker, script, step),
        "store" => run_store(rt, checker, script, step),
        _ => {
            run_command(rt, checker, streams, step.words);
            checker.settle(step);
        }
    }
}

/// Runs a command that stands alone, or changes how the streams of those after it behave.
fn run_command<R: Threads + Wait + RandomSource + Clock + Sync>(
    rt: &R,
    checker: &mut Checker,
    streams: &mut Streams,
    words: Words,
) {
    let name = words.word(0);
    if name == "into" {
        run_program(rt, checker, *streams, words.rest(2));
        checker.name_made(words.word(1));
    } else if runs_program(name) {
        run_program(rt, checker, *streams, words);
    } else if needs_host(name) {
        run_on_host(rt, words, checker.input.bytes(), &mut checker.made);
    } else {
        run_call(checker, streams, words);
    }
}

fn runs_program(name: &str) -> bool {
    matches!(name, "flame" | "as" | "both" | "each" | "process" | "read")
}

/// Runs a command that runs the program.
fn run_program<R: Threads + Wait + RandomSource + Sync>(
    rt: &R,
    checker: &mut Checker,
    streams: Streams,
    words: Words,
) {
    let run = Run {
        rt,
        alloc: checker.alloc,
        streams,
        input: checker.input.bytes(),
    };
    let made = &mut checker.made;
    match words.word(0) {
        "flame" => run.once(words.text, made),
        "as" => run.once(words.rest(1).text, made),
        "process" => run.process(words, made),
        "read" => run.read(made),
        _ => run.often(words, &checker.names, made),
    }
}

fn needs_host(name: &str) -> bool {
    matches!(name, "hashes" | "live" | "sources")
}

/// Runs a command that needs threads, time or random bytes.
fn run_on_host<R: Threads + Wait + RandomSource + Clock + Sync>(
    rt: &R,
    words: Words,
    input: &[u8],
    made: &mut Made,
) {
    match words.word(0) {
        "hashes" => hashes::compare(rt, input, made),
        "live" => live::run_live(rt, words, input, made),
        "sources" => sources::fill(rt, input, made),
        _ => made.fail(Wrong::Command),
    }
}

/// Runs a command that names something, changes the streams, or is a call of the library.
fn run_call(checker: &mut Checker, streams: &mut Streams, words: Words) {
    let (input, made) = (checker.input.bytes(), &mut checker.made);
    match words.word(0) {
        "let" => checker.name_input(words.word(1)),
        "reader" | "writer" | "flush" | "limit" | "random" => streams.set(words, made),
        "faults" => tell_faults(words, made),
        "same" => compare_receipts(input, made),
        _ => library_steps::run_command(words, input, made),
    }
}
