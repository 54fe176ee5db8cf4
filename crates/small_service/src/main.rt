//! A small service: `small_service FILE..` adds up folded text, a thread for each file, and writes the top list.
#![tactic(auto)]

ghost use Rattle.std.specs.Prelude.{◌≡◌};

use anyhow::{Result, bail};
use profile_store::{
    Answer, Batch, BookFault, Hashing, Kind, Query, Rank, merge_lines, report, top_text,
};
use std::io::Write;
use std::sync::{Arc, Mutex, MutexGuard, Wait};
use std::time::Clock;
use std::{env, fs, io};
use store_window::{ClosedWindow, NoWatcher, Slot, Source, fill_window};

/// The rows of a file, until they are added.
#[derive(Drop)]
struct Rows {
    batch: Option<Arc<Batch>>,
    /// Why the window refused them, where it did.
    refused: Option<BookFault>,
}

impl Source for Rows {
    fn next_batch<R: Wait + Clock>(&mut self, _rt: &R) -> Option<Arc<Batch>> {
        self.batch.take()
    }

    fn take_back<R: Wait>(&mut self, _rt: &R, _batch: Arc<Batch>, fault: BookFault) {
        self.refused = Some(fault);
    }

    fn leave(&mut self) {}
}

/// The rows of a file, lines of one stack merged.
fn read_file(rt: HostRuntime, hashing: Hashing, name: &str) -> Result<Mutex<Slot<Rows>>> {
    let alloc = rt.alloc();
    let text = fs::read(&rt, name)?;
    let merged = merge_lines(alloc, hashing, text.as_slice())?;
    let batch = Arc::new(alloc, Batch::single(alloc, merged))?;
    Ok(Mutex::new(Slot::new(Rows {
        batch: Some(batch),
        refused: None,
    })))
}

/// An error where the window refused a file's rows.
fn check_added<R: Wait>(rt: &R, file: &Mutex<Slot<Rows>>) -> Result<()> {
    let slot = file.lock(rt);
    let refused = slot.source.refused;
    MutexGuard::unlock(slot);
    match refused {
        Some(fault) => bail!("not all rows were added: {fault}"),
        None => Ok(()),
    }
}

/// The names that weigh most by themselves.
fn top_query() -> Query
    ensures { result.value ≡ 0 }
{
    Query {
        focus: None,
        ignore: None,
        value: 0,
        kind: Kind::Top {
            rank: Rank::Flat,
            count: 10,
        },
    }
}

/// The rows of each file that the arguments name.
fn read_files(rt: HostRuntime, hashing: Hashing) -> Result<Vec<Mutex<Slot<Rows>>>> {
    let alloc = rt.alloc();
    let mut files = Vec::new(alloc);
    for name in env::args(&rt)?.skip(1) {
        files.push(read_file(rt, hashing, name.as_str())?)?;
    }
    Ok(files)
}

/// An error where the window lacks some rows.
fn check_all<R: Wait>(rt: &R, window: &ClosedWindow, files: &[Mutex<Slot<Rows>>]) -> Result<()> {
    if let Some(fault) = window.missing {
        bail!("not all files were added: {fault}");
    }
    for file in files {
        check_added(rt, file)?;
    }
    Ok(())
}

/// Writes the top list of a window.
fn write_top(rt: HostRuntime, window: &ClosedWindow) -> Result<()> {
    let alloc = rt.alloc();
    let answer = report(alloc, window.audited_tree(alloc)?, &top_query())?;
    if let Answer::Top(top) = &answer {
        io::writer(&rt).write_all(top_text(alloc, top)?.as_slice())?;
    }
    Ok(())
}

fn main(rt: HostRuntime) -> Result<()> {
    let alloc = rt.alloc();
    let hashing = Hashing::random(&rt)?;
    let files = read_files(rt, hashing)?;
    let window = fill_window(&rt, alloc, hashing, files.as_slice(), &NoWatcher)?;
    check_all(&rt, &window, files.as_slice())?;
    write_top(rt, &window)
}
