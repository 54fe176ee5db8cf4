//! Sources read as they come, each in a thread of its own.

use crate::begun::Begun;
use crate::messages::Messages;
use crate::origin::Origin;
use crate::text::count_lines;
use crossbeam_channel::{Receiver, Sender};
use std::alloc::Global;
use std::io::Read;
use std::sync::{Arc, Wait};
use std::time::{Clock, Duration};
use std::{mem, thread};

/// How many milliseconds a reader waits for memory before it asks again.
const PAUSE: u64 = 20;

/// What a source brought.
#[derive(Drop)]
pub struct Piece {
    /// Where it comes from.
    pub origin: Arc<Origin>,
    /// What it is.
    pub content: Content,
}

/// Lines of folded text, each with its end but for the last line of an origin.
#[derive(Drop)]
pub struct Lines {
    /// Their bytes.
    pub bytes: Vec<u8>,
    /// How many there are.
    pub count: u64,
}

impl Lines {
    /// Counts lines that were just read, while the processor has them at hand.
    fn of(bytes: Vec<u8>) -> Lines {
        let count = count_lines(bytes.as_slice());
        Lines { bytes, count }
    }
}

/// What a piece is.
#[derive(Drop)]
pub enum Content {
    /// Whole lines.
    Lines(Lines),
    /// A profile, whole.
    Profile(Vec<u8>),
    /// All of the origin came before this.
    End,
}

/// An origin that is open for reading.
#[derive(Drop)]
pub struct Opened<F: Drop> {
    /// What it is called, and whether more of it is read.
    pub origin: Arc<Origin>,
    /// Where its bytes are read.
    pub file: F,
    /// The same named pipe, open for writing too, so that it doesn't end before somebody has written to it.
    pub kept_open: Option<F>,
}

/// Where a source's bytes go.
#[derive(Drop)]
pub struct Reader<'a> {
    alloc: Global,
    messages: &'a Messages,
    to: Sender<Piece>,
}

/// Nobody takes pieces any more.
#[derive(Drop)]
struct Unwanted;

impl<'a> Reader<'a> {
    /// A reader that sends its pieces there. Takes no memory.
    pub fn new(alloc: Global, messages: &'a Messages, to: Sender<Piece>) -> Reader<'a> {
        Reader {
            alloc,
            messages,
            to,
        }
    }

    /// Reads each origin that comes to its end, and sends what it brings.
    pub fn read_all<F: Read + Drop, R: Wait + Clock>(self, rt: &R, opened: Receiver<Opened<F>>) {
        for _ in rt.forever() {
            let Ok(next) = opened.recv(rt) else {
                break;
            };
            if self.read(rt, next).is_err() {
                break;
            }
        }
    }

    fn read<F: Read + Drop, R: Wait + Clock>(
        &self,
        rt: &R,
        opened: Opened<F>,
    ) -> Result<(), Unwanted> {
        let Opened {
            origin,
            mut file,
            mut kept_open,
        } = opened;
        let mut begun = Begun::new(self.alloc);
        let mut is_whole = false;
        for _ in rt.forever() {
            self.make_room(rt, &mut begun);
            match self.read_some(&origin, &mut file, begun.room()) {
                Some(0) => {
                    is_whole = true;
                    break;
                }
                Some(count) => {
                    drop(mem::take(&mut kept_open));
                    self.take(rt, &origin, &mut begun, count)?;
                }
                None => break,
            }
        }
        if is_whole {
            self.finish(rt, &origin, begun.into_bytes())?;
        }
        self.send(rt, &origin, Content::End)
    }

    /// How many bytes are read: none at the end. Nothing where the origin is over, or can't be read.
    fn read_some<F: Read>(&self, origin: &Origin, file: &mut F, room: &mut [u8]) -> Option<usize> {
        if origin.is_over() {
            return None;
        }
        match file.read(room) {
            Ok(count) => Some(count),
            Err(error) => {
                origin.lose();
                self.messages.blame(origin.name(), &error);
                None
            }
        }
    }

    /// Sends the lines that end in the bytes that were read last, of which there are so many.
    fn take<R: Wait + Clock>(
        &self,
        rt: &R,
        origin: &Arc<Origin>,
        begun: &mut Begun,
        count: usize,
    ) -> Result<(), Unwanted> {
        match begun.add(count) {
            Some(end) if !origin.is_profile() => {
                let lines = self.split(rt, origin, begun, end);
                self.send(rt, origin, Content::Lines(Lines::of(lines)))
            }
            _ => Ok(()),
        }
    }

    /// Makes room for what is read next, as soon as there is memory for it.
    fn make_room<R: Wait + Clock>(&self, rt: &R, begun: &mut Begun) {
        for _ in rt.forever() {
            if begun.make_room().is_ok() {
                break;
            }
            thread::sleep(rt, Duration::from_millis(PAUSE));
        }
    }

    /// The lines before a place, as soon as there is memory for what follows them.
    fn split<R: Wait + Clock>(
        &self,
        rt: &R,
        origin: &Origin,
        begun: &mut Begun,
        place: usize,
    ) -> Vec<u8> {
        let mut room = origin.room(rt, self.alloc);
        for _ in rt.forever() {
            match begun.split(place, room) {
                Ok(lines) => return lines,
                Err(back) => room = back,
            }
            thread::sleep(rt, Duration::from_millis(PAUSE));
        }
        unreachable!()
    }

    /// Sends what an origin ends with.
    fn finish<R: Wait>(
        &self,
        rt: &R,
        origin: &Arc<Origin>,
        begun: Vec<u8>,
    ) -> Result<(), Unwanted> {
        if origin.is_profile() {
            return self.send(rt, origin, Content::Profile(begun));
        }
        if begun.is_empty() {
            return Ok(());
        }
        self.send(rt, origin, Content::Lines(Lines::of(begun)))
    }

    fn send<R: Wait>(
        &self,
        rt: &R,
        origin: &Arc<Origin>,
        content: Content,
    ) -> Result<(), Unwanted> {
        let Ok(origin) = Arc::try_clone(origin) else {
            return Err(Unwanted);
        };
        match self.to.send(rt, Piece { origin, content }) {
            Ok(()) => Ok(()),
            Err(_) => Err(Unwanted),
        }
    }
}
