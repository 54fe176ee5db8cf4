//! The folder in which each window's report becomes a file.

use anyhow::{Result, bail};
use std::io::Write;
use std::{fs, io};

/// A folder with a file for each window, numbered on from those that it has.
#[derive(Drop)]
pub(crate) struct Folder {
    path: String,
    next: u64,
}

impl Folder {
    /// The folder of this path.
    ///
    /// # Errors
    ///
    /// What the system says, after the path, where the folder isn't there or can't be read.
    pub(crate) fn open(rt: HostRuntime, path: &str) -> Result<Folder> {
        match next_number(rt, path) {
            Ok(next) => Ok(Folder {
                path: String::from_str(rt.alloc(), path)?,
                next,
            }),
            Err(error) => bail!("{path}: {error}"),
        }
    }

    /// Writes the next window's report, so that a file of a window's name is whole or isn't there.
    ///
    /// # Errors
    ///
    /// What the system says, after the file's name.
    pub(crate) fn write(&mut self, rt: HostRuntime, report: &[u8]) -> Result<()> {
        let (path, number) = (self.path.as_str(), self.next);
        let begun = format!(in rt.alloc(); "{path}/{number}.part")?;
        let name = format!(in rt.alloc(); "{path}/{number}.folded")?;
        self.next = number.saturating_add(1);
        if let Err(error) = write_renamed(rt, begun.as_str(), name.as_str(), report) {
            let _ = fs::remove_file(&rt, begun.as_str());
            bail!("{name}: {error}");
        }
        Ok(())
    }
}

/// Writes a file under one name, waits until it is on the disk, and gives it another.
fn write_renamed(rt: HostRuntime, begun: &str, name: &str, bytes: &[u8]) -> io::Result<()> {
    let mut file = fs::create(&rt, begun)?;
    file.write_all(bytes)?;
    file.sync_all()?;
    fs::rename(&rt, begun, name)
}

/// The number after those of the windows in a folder, from 1.
fn next_number(rt: HostRuntime, path: &str) -> io::Result<u64> {
    let mut next = 1;
    for entry in fs::read_dir(&rt, path)? {
        if let Some(number) = number_of(entry?.file_name()) {
            next = number.saturating_add(1).max(next);
        }
    }
    Ok(next)
}

/// The number of the window of this file.
fn number_of(name: &str) -> Option<u64> {
    name.strip_suffix(".folded")?.parse().ok()
}
