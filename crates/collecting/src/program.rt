//! The program `collect`.

use crate::adding::Adder;
use crate::options::{Options, read_options};
use crate::output::Output;
use crate::windows::{Closed, Windows};
use anyhow::{Result, bail};
use clap::error::ErrorKind;
use collect_sources::{Inbox, Messages, Opened, Piece, Reader, open};
use crossbeam_channel::{Sender, bounded};
use profile_store::{Hashing, Kind, Query};
use std::alloc::Global;
use std::fs::File;
use std::io::{IsTerminal, Write};
use std::process::ExitCode;
use std::random::RandomSource;
use std::sync::{Arc, Mutex, Wait};
use std::thread::Threads;
use std::time::{Clock, Duration};
use std::{env, fs, thread};
use store_window::Slot;

/// How many adders there are at most: a store has 64 sessions, and one watches.
const MOST_ADDERS: usize = 63;

/// How many pieces wait for an adder at most.
const WAITING_PIECES: usize = 64;

/// How many files of a folder are open at most.
const OPEN_FILES: usize = 16;

/// The whole of `main`.
pub fn run<T: Threads + Wait + Clock + RandomSource + Sync>(
    threads: &T,
    rt: HostRuntime,
) -> ExitCode {
    match try_run(threads, rt) {
        Ok(status) => ExitCode::from(status),
        Err(error) => {
            Messages::new(rt.alloc(), rt.stderr()).say(&error);
            ExitCode::from(2)
        }
    }
}

/// Runs on the arguments, and gives the exit status.
fn try_run<T: Threads + Wait + Clock + RandomSource + Sync>(
    threads: &T,
    rt: HostRuntime,
) -> Result<u8> {
    let alloc = rt.alloc();
    let words: Vec<String> = env::args(&rt)?.collect(alloc)?;
    let texts: Vec<&str> = words.iter().map(|word| word.as_str()).collect(alloc)?;
    match read_options(alloc, texts.as_slice()) {
        Ok(options) => collect(threads, rt, &options),
        Err(error) if error.kind() == ErrorKind::DisplayHelp => {
            write!(rt.stdout(), "{error}")?;
            Ok(0)
        }
        Err(error) => {
            write!(rt.stderr(), "{error}")?;
            Ok(2)
        }
    }
}

/// Reads all sources and writes all windows. Gives the exit status.
fn collect<T: Threads + Wait + Clock + RandomSource + Sync>(
    threads: &T,
    rt: HostRuntime,
    options: &Options,
) -> Result<u8> {
    let alloc = rt.alloc();
    let messages = Messages::new(alloc, rt.stderr());
    let mut output = Output::open(rt, &messages, options.out)?;
    let hashing = Hashing::random(threads)?;
    let windows = windows_of(rt, &messages, hashing, options)?;
    run_threads(threads, rt, &messages, options, windows, &mut output)?;
    output.finish(rt)?;
    Ok(messages.status())
}

/// How windows are filled, by these options.
fn windows_of<'a>(
    rt: HostRuntime,
    messages: &'a Messages,
    hashing: Hashing,
    options: &Options,
) -> Result<Windows<'a>> {
    let (rank, count) = (options.rank, options.top);
    let query = Query {
        focus: None,
        ignore: None,
        value: 0,
        kind: Kind::Top { rank, count },
    };
    let shown = if rt.stderr().is_terminal() {
        Some(1)
    } else {
        None
    };
    Ok(Windows {
        alloc: rt.alloc(),
        messages,
        hashing,
        length: Duration::from_secs(options.seconds),
        rows: options.rows,
        query: Arc::new(rt.alloc(), query)?,
        every: options.every.or(shown).map(Duration::from_secs),
    })
}

/// Starts the threads that read and the one that fills windows, and writes windows until all sources have ended.
fn run_threads<T: Threads + Wait + Clock + Sync>(
    threads: &T,
    rt: HostRuntime,
    messages: &Messages,
    options: &Options,
    windows: Windows,
    output: &mut Output,
) -> Result<()> {
    let alloc = rt.alloc();
    let sources = options.sources.as_slice();
    let (to, closed) = bounded::<Closed, Global>(alloc, 0)?;
    let (senders, adders) = adders_for(&windows, options.value, sources.len())?;
    thread::scope(thread::scope_env(), threads, |scope| -> Result<()> {
        let mut inboxes = Vec::new(alloc);
        for (at, name) in sources.iter().enumerate() {
            let (files, opened) = bounded::<Opened<File>, Global>(alloc, OPEN_FILES)?;
            let reader = Reader::new(alloc, messages, sender_for(senders.as_slice(), at)?);
            let _reading = scope.spawn(move || reader.read_all(threads, opened))?;
            if let Some(inbox) = begin(threads, rt, messages, *name, files) {
                inboxes.push(inbox)?;
            }
        }
        drop(senders);
        let _filling = scope.spawn(move || windows.run(threads, adders, to))?;
        output.write_all(threads, rt, &closed, &mut inboxes);
        Ok(())
    })
}

/// Adders for so many sources, and where the pieces of each go.
fn adders_for<'a>(
    windows: &Windows<'a>,
    value: Option<&'a str>,
    sources: usize,
) -> Result<(Vec<Sender<Piece>>, Vec<Mutex<Slot<Adder<'a>>>>)> {
    let alloc = windows.alloc;
    let (mut senders, mut adders) = (Vec::new(alloc), Vec::new(alloc));
    let count = sources.min(MOST_ADDERS);
    for _ in 0..count {
        let (to, pieces) = bounded::<Piece, Global>(alloc, WAITING_PIECES)?;
        let adder = Adder::new(
            alloc,
            windows.messages,
            windows.hashing,
            value,
            pieces,
            count,
        );
        adders.push(Mutex::new(Slot::new(adder)))?;
        senders.push(to)?;
    }
    Ok((senders, adders))
}

/// Where the pieces of the source of this number go: sources share adders where there are more of them.
fn sender_for(senders: &[Sender<Piece>], source: usize) -> Result<Sender<Piece>> {
    let slot = source.checked_rem(senders.len()).unwrap_or(0);
    match senders.get(slot) {
        Some(sender) => Ok(sender.clone()?),
        None => bail!("there is no adder"),
    }
}

/// Opens a source for its reader. A folder gives an inbox, which is to be looked at again and again.
fn begin<'a, T: Wait>(
    threads: &T,
    rt: HostRuntime,
    messages: &'a Messages,
    name: &'a str,
    to: Sender<Opened<File>>,
) -> Option<Inbox<'a>> {
    if fs::metadata(&rt, name).is_ok_and(|metadata| metadata.is_dir()) {
        return Some(Inbox::new(rt.alloc(), messages, name, to));
    }
    match open(rt, name, false) {
        Ok(opened) => {
            // Its reader has room for one file.
            let _ = to.send(threads, opened);
        }
        Err(error) => messages.blame(name, &error),
    }
    None
}
