//! Where rows come from.

use std::alloc::{AllocError, Global};
use std::sync::atomic::{AtomicBool, AtomicU64, Ordering};
use std::sync::{Arc, Mutex, MutexGuard, Wait};

/// A file, a named pipe or the standard input, from when it is opened until it is read to its end.
#[derive(Drop)]
pub struct Origin {
    name: String,
    is_profile: bool,
    /// It lies in a folder that is a source.
    is_in_folder: bool,
    /// Some of its rows are in no written window.
    is_lost: AtomicBool,
    /// Nothing more of it is read.
    is_over: AtomicBool,
    /// How many of its lines were read into rows.
    lines: AtomicU64,
    /// Room of pieces whose bytes stand elsewhere, for the next ones.
    spare: Mutex<Vec<Vec<u8>>>,
}

impl Origin {
    /// An origin of this name, of which nothing was read. What ends with `.pb` is a profile, all else is folded text.
    ///
    /// # Errors
    ///
    /// `AllocError`.
    pub fn new(alloc: Global, name: &str, is_in_folder: bool) -> Result<Arc<Origin>, AllocError> {
        let origin = Origin {
            name: String::from_str(alloc, name)?,
            is_profile: name.ends_with(".pb"),
            is_in_folder,
            is_lost: AtomicBool::new(false),
            is_over: AtomicBool::new(false),
            lines: AtomicU64::new(0),
            spare: Mutex::new(Vec::new(alloc)),
        };
        Ok(Arc::new(alloc, origin)?)
    }

    /// Its path, or `-` for the standard input.
    pub fn name(&self) -> &str {
        self.name.as_str()
    }

    /// Whether it is a profile by its name.
    pub fn is_profile(&self) -> bool {
        self.is_profile
    }

    /// Some of its rows are in no written window.
    pub fn lose(&self) {
        self.is_lost.store(true, Ordering::SeqCst);
    }

    /// Whether who fills the folder is told when all its rows are in written windows.
    pub fn is_told(&self) -> bool {
        self.is_in_folder && !self.is_lost.load(Ordering::SeqCst)
    }

    /// Whether nothing more of it is read.
    pub fn is_over(&self) -> bool {
        self.is_over.load(Ordering::SeqCst)
    }

    /// From now on nothing more of it is read.
    pub fn end(&self) {
        self.is_over.store(true, Ordering::SeqCst);
    }

    /// Takes the room of a piece whose bytes stand elsewhere.
    pub fn give_back<R: Wait>(&self, rt: &R, room: Vec<u8>) {
        let mut spare = self.spare.lock(rt);
        // Where there is no memory for it, it is let go.
        let _ = spare.push(room);
        MutexGuard::unlock(spare);
    }

    /// Room for a piece, with bytes of an earlier one.
    pub fn room<R: Wait>(&self, rt: &R, alloc: Global) -> Vec<u8> {
        let mut spare = self.spare.lock(rt);
        let room = spare.pop();
        MutexGuard::unlock(spare);
        room.unwrap_or(Vec::new(alloc))
    }

    /// Counts lines that were read into rows, and gives how many there were before.
    pub fn count_lines(&self, lines: u64) -> u64 {
        self.lines.fetch_add(lines, Ordering::SeqCst)
    }
}
