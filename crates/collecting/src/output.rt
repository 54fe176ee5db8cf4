//! The windows that are closed, as they are written.

use crate::adding::Told;
use crate::reporting::report_of;
use crate::windows::Closed;
use crate::written::Folder;
use anyhow::Result;
use collect_sources::{Inbox, Messages, Origin};
use crossbeam_channel::Receiver;
use std::alloc::Global;
use std::fmt::Display;
use std::io::Write;
use std::sync::{Arc, Wait};
use std::time::{Clock, Duration};
use std::{io, mem};

/// After how many milliseconds folders are looked at again.
const POLL: u64 = 250;

/// Where reports go: each window's to a folder, or the last one's to the standard output.
#[derive(Drop)]
pub(crate) struct Output<'a> {
    messages: &'a Messages,
    folder: Option<Folder>,
    last: Vec<u8>,
}

impl<'a> Output<'a> {
    /// Opens the folder, where there is one.
    pub(crate) fn open(
        rt: HostRuntime,
        messages: &'a Messages,
        folder: Option<&str>,
    ) -> Result<Output<'a>> {
        let folder = match folder {
            Some(path) => Some(Folder::open(rt, path)?),
            None => None,
        };
        Ok(Output {
            messages,
            folder,
            last: Vec::new(rt.alloc()),
        })
    }

    /// Writes each window that is closed, and looks at folders meanwhile, until there are no more windows.
    pub(crate) fn write_all<T: Wait + Clock>(
        &mut self,
        threads: &T,
        rt: HostRuntime,
        closed: &Receiver<Closed>,
        inboxes: &mut Vec<Inbox>,
    ) {
        for _ in threads.forever() {
            for inbox in inboxes.iter_mut() {
                inbox.poll(threads, rt);
            }
            match closed.recv_timeout(threads, Duration::from_millis(POLL)) {
                Ok(window) => self.take(rt, window),
                Err(error) if error.is_disconnected() => break,
                Err(_) => {}
            }
        }
    }

    /// Writes a window, or says why it is lost.
    fn take(&mut self, rt: HostRuntime, closed: Closed) {
        if let Some(cause) = closed.ended_early {
            self.messages
                .say(&format_args!("a window ended early, since {cause}"));
        }
        match self.write(rt, &closed) {
            Ok(()) => self.tell_all(rt, closed.told.as_slice()),
            Err(error) => {
                self.messages.lose_window(&error);
                for told in closed.told.as_slice() {
                    told.added.iter().for_each(|origin| origin.lose());
                }
            }
        }
        drop(closed);
    }

    /// Tells which files of folders are in written windows with all their rows, where windows are written.
    fn tell_all(&self, rt: HostRuntime, told: &[Told]) {
        if self.folder.is_some() {
            for one in told {
                self.tell(rt, one.read.as_slice());
            }
        }
    }

    /// Writes the report of a window to which something was added.
    fn write(&mut self, rt: HostRuntime, closed: &Closed) -> Result<()> {
        if closed.window.is_empty() {
            return Ok(());
        }
        let report = report_of(rt.alloc(), &closed.window)?;
        match &mut self.folder {
            Some(folder) => folder.write(rt, report.as_slice())?,
            None => self.last = report,
        }
        Ok(())
    }

    /// Tells which of these are files of folders, all of whose rows are in written windows.
    fn tell(&self, rt: HostRuntime, read: &[Arc<Origin>]) {
        for origin in read.iter().filter(|origin| origin.is_told()) {
            if let Err(error) = tell_name(rt, origin.name()) {
                self.messages
                    .say(&format_args!("the standard output: {error}"));
            }
        }
    }

    /// Writes the last window's report where there is no folder.
    pub(crate) fn finish(self, rt: HostRuntime) -> io::Result<()> {
        rt.stdout().write_all(self.last.as_slice())
    }
}

fn tell_name(rt: HostRuntime, name: &str) -> io::Result<()> {
    let line = format!(in rt.alloc(); "{name}\n")?;
    rt.stdout().write_all(line.as_bytes())
}
