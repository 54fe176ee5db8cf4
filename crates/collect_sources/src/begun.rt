//! Bytes of an origin that aren't sent yet.

use memchr::memrchr;
use std::alloc::{AllocError, Global};
use std::mem;

/// How many bytes are read at once: as many as a pipe holds.
const ROOM: usize = 65_536;

/// How many bytes of room are made at once.
const STEP: usize = 1_024;

/// The bytes that were read, and room after them, into which more are read. So none is copied but the begun line after
/// the last whole one.
#[derive(Drop)]
pub(crate) struct Begun {
    bytes: Vec<u8>,
    /// How many were read.
    len: usize,
}

impl Begun {
    pub(crate) fn new(alloc: Global) -> Begun {
        Begun {
            bytes: Vec::new(alloc),
            len: 0,
        }
    }

    /// Makes room for the bytes that are read next.
    pub(crate) fn make_room(&mut self) -> Result<(), AllocError> {
        for _ in 0..=ROOM / STEP {
            if self.bytes.len().saturating_sub(self.len) >= ROOM {
                break;
            }
            self.bytes.extend_from_slice(&[0; STEP])?;
        }
        Ok(())
    }

    /// The room that there is.
    pub(crate) fn room(&mut self) -> &mut [u8] {
        self.bytes
            .as_mut_slice()
            .get_mut(self.len..)
            .unwrap_or(&mut [])
    }

    /// Takes so many bytes that were read into the room. It gives the place after the last line that ends in them.
    pub(crate) fn add(&mut self, count: usize) -> Option<usize> {
        let from = self.len;
        self.len = from.saturating_add(count).min(self.bytes.len());
        let read = self.bytes.as_slice().get(from..self.len)?;
        Some(memrchr(b'\n', read)?.saturating_add(from).saturating_add(1))
    }

    /// Gives the bytes before a place. Those after it go on in other room, which comes back where there is no memory.
    pub(crate) fn split(&mut self, place: usize, room: Vec<u8>) -> Result<Vec<u8>, Vec<u8>> {
        let mut room = room;
        let rest = self.bytes.as_slice().get(place..self.len).unwrap_or(&[]);
        let len = rest.len();
        if put_first(&mut room, rest).is_err() {
            return Err(room);
        }
        let mut before = mem::replace(&mut self.bytes, room);
        before.truncate(place);
        self.len = len;
        Ok(before)
    }

    /// All bytes.
    pub(crate) fn into_bytes(self) -> Vec<u8> {
        let mut bytes = self.bytes;
        bytes.truncate(self.len);
        bytes
    }
}

/// Puts bytes over the first of some room, which grows where it is too short.
fn put_first(room: &mut Vec<u8>, bytes: &[u8]) -> Result<(), AllocError> {
    let count = bytes.len().min(room.len());
    let (over, more) = bytes.split_at(count);
    room[..count].copy_from_slice(over);
    room.extend_from_slice(more)
}
