//! Folders in which files come.

use crate::messages::Messages;
use crate::reading::Opened;
use crate::sources::open;
use crossbeam_channel::Sender;
use std::alloc::Global;
use std::fs::File;
use std::sync::Wait;
use std::{fs, io};

/// A folder as a source, and where its files go once they are open.
#[derive(Drop)]
pub struct Inbox<'a> {
    messages: &'a Messages,
    path: &'a str,
    /// The names in it that were taken, in order.
    taken: Vec<String>,
    to: Sender<Opened<File>>,
    /// It couldn't be read when it was looked at last.
    is_blamed: bool,
}

impl<'a> Inbox<'a> {
    /// No file of the folder was taken yet. Takes no memory.
    pub fn new(
        alloc: Global,
        messages: &'a Messages,
        path: &'a str,
        to: Sender<Opened<File>>,
    ) -> Inbox<'a> {
        Inbox {
            messages,
            path,
            taken: Vec::new(alloc),
            to,
            is_blamed: false,
        }
    }

    /// Takes the files that have come, in the order of their names.
    pub fn poll<R: Wait>(&mut self, threads: &R, rt: HostRuntime) {
        match self.try_poll(threads, rt) {
            Ok(()) => self.is_blamed = false,
            Err(error) if !self.is_blamed => {
                self.is_blamed = true;
                self.messages.blame(self.path, &error);
            }
            Err(_) => {}
        }
    }

    fn try_poll<R: Wait>(&mut self, threads: &R, rt: HostRuntime) -> io::Result<()> {
        let names = names_in(rt, self.path)?;
        let mut taken = Vec::with_capacity(rt.alloc(), names.len())?;
        for name in names {
            if self.has_taken(name.as_str()) || self.take(threads, rt, name.as_str()) {
                taken.push(name)?;
            }
        }
        self.taken = taken;
        Ok(())
    }

    fn has_taken(&self, name: &str) -> bool {
        self.taken
            .binary_search_by(|taken| taken.as_str().cmp(name))
            .is_ok()
    }

    /// Whether a file needn't be looked at again: it goes to its reader, or can't be opened.
    fn take<R: Wait>(&self, threads: &R, rt: HostRuntime, name: &str) -> bool {
        if self.to.is_full() {
            return false;
        }
        match open(rt, name, true) {
            Ok(opened) => self.to.try_send(threads, opened).is_ok(),
            Err(error) => {
                self.messages.blame(name, &error);
                true
            }
        }
    }
}

/// The files of a folder that are complete, in the order of their names.
fn names_in(rt: HostRuntime, path: &str) -> io::Result<Vec<String>> {
    let mut names = Vec::new(rt.alloc());
    for entry in fs::read_dir(&rt, path)? {
        let entry = entry?;
        if is_complete(entry.file_name()) {
            names.push(format!(in rt.alloc(); "{path}/{}", entry.file_name())?)?;
        }
    }
    names.sort_unstable();
    Ok(names)
}

/// Whether a file of this name is complete.
fn is_complete(name: &str) -> bool {
    !name.starts_with('.') && (name.ends_with(".folded") || name.ends_with(".pb"))
}
