//! Opening what rows come from.

use crate::origin::Origin;
use crate::reading::Opened;
use std::fs::{File, OpenOptions};
use std::os::unix::fs::FileTypeExt;
use std::{fs, io};

/// Opens a file, a named pipe or, as `-`, the standard input. It doesn't wait for who writes to a pipe.
///
/// # Errors
///
/// Those of the system.
pub fn open(rt: HostRuntime, name: &str, is_in_folder: bool) -> io::Result<Opened<File>> {
    let path = if name == "-" { "/dev/stdin" } else { name };
    let is_pipe = fs::metadata(&rt, path)?.file_type().is_fifo();
    let kept_open = if is_pipe {
        open_both_ways(rt, path)
    } else {
        None
    };
    Ok(Opened {
        origin: Origin::new(rt.alloc(), name, is_in_folder)?,
        file: fs::open(&rt, path)?,
        kept_open,
    })
}

/// Opens a named pipe for reading and writing, which doesn't wait for another end.
fn open_both_ways(rt: HostRuntime, path: &str) -> Option<File> {
    OpenOptions::new()
        .read(true)
        .write(true)
        .open(&rt, path)
        .ok()
}
