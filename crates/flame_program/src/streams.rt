//! Reading a whole input within a limit, and writing a whole text.

ghost use Rattle.std.specs.Prelude.{◌≡◌, ◌+◌, ◌<◌, ◌≤◌, ℕ, List, Option, [], MatchResult, IfOk, OnOk, OnErr, vec_len};
ghost use Rattle.std.specs.Prelude.{length, take};
ghost use Rattle.std.specs.Io.KnownBytes.{Appends, Consumes};
ghost use Rattle.flame_program.specs.Parts.{AppendsBeginning, IsReadSoFar, IsWholeInput, LeavesAfterFault};

use std::alloc::{AllocError, Global};
use std::io::{Read, Write};
use thiserror::Error;

/// The longest input that a caller may allow: 256 MiB.
pub const MAX_INPUT: usize = 268_435_456;

// What one read asks for at most.
const CHUNK: usize = 65_536;

/// Why an input wasn't read whole.
#[derive(Clone, Copy, Debug, PartialEq, Eq, Error)]
pub enum ReadFault {
    /// A read failed.
    #[error("Read")]
    Read,
    /// The input has more bytes than the limit.
    #[error("TooLong")]
    TooLong,
    /// Memory ran out.
    #[error("NoMemory")]
    NoMemory,
}

/// A write or a flush failed, or a write took no byte.
#[derive(Clone, Copy, Debug, PartialEq, Eq, Error)]
#[error("Write")]
pub struct WriteFault;

/// Reads to the end of the input, and at most one byte past `limit`.
///
/// # Errors
///
/// `TooLong` at the first byte past the limit, after which nothing more is read; `Read` at any error of a read before
/// it, also where a read was interrupted; `NoMemory`.
pub fn read_input<R: Read>(
    alloc: Global,
    reader: &mut R,
    limit: usize,
) -> Result<Vec<u8>, ReadFault>
    requires { limit ≤ MAX_INPUT }
    ensures { MatchResult result
        (λ input. IsWholeInput limit (R.remaining reader.old) (R.remaining reader.new) input.items)
        (λ fault. LeavesAfterFault limit (R.remaining reader.old) (R.remaining reader.new) fault) }
{
    let mut buffer = new_buffer(alloc, CHUNK).map_err(|_| ReadFault::NoMemory)?;
    let mut input = Vec::new(alloc);
    while read_part(reader, buffer.as_mut_slice(), &mut input, limit)? {}
    Ok(input)
}

// Room for one read of at most `size` bytes.
fn new_buffer(alloc: Global, size: usize) -> Result<Vec<u8>, AllocError>
    ensures { IfOk result (λ buffer. vec_len buffer ≡ size) }
{
    vec![in alloc; 0u8; size]
}

// Reads once, and puts what was read at the end of the input. Says whether there was any.
fn read_part<R: Read>(
    reader: &mut R,
    buffer: &mut [u8],
    input: &mut Vec<u8>,
    limit: usize,
) -> Result<bool, ReadFault>
    requires allowed { limit ≤ MAX_INPUT }
    requires short { length input.old.items ≤ limit }
    requires part { 0 < length buffer.old }
    ensures { (start : Option (List ℕ)) → Consumes start (R.remaining reader.old) input.old.items
        → MatchResult result
        (λ is_more. IsReadSoFar limit start (R.remaining reader.new) input.old.items input.new.items is_more)
        (λ fault. LeavesAfterFault limit start (R.remaining reader.new) fault) }
{
    let room = limit - input.len() + 1;
    let part = room.min(buffer.len());
    let count = match reader.read(&mut buffer[..part]) {
        Ok(count) => count,
        Err(_) => return Err(ReadFault::Read),
    };
    if count == room {
        return Err(ReadFault::TooLong);
    }
    match input.extend_from_slice(&buffer[..count]) {
        Ok(()) => Ok(count > 0),
        Err(_) => Err(ReadFault::NoMemory),
    }
}

/// Writes the whole text, and flushes.
///
/// # Errors
///
/// Any error of a write or of the flush, also where a write was interrupted, and a write that takes no byte. A prefix
/// of the text was then written.
pub fn write_text<W: Write>(writer: &mut W, text: &[u8]) -> Result<(), WriteFault>
    ensures done { OnOk result (Appends (W.contents writer.old) (W.contents writer.new) text.now) }
    ensures cut { OnErr result (AppendsBeginning (W.contents writer.old) (W.contents writer.new) text.now) }
{
    let mut rest = text;
    while !rest.is_empty() {
        let count = write_part(writer, rest)?;
        rest = &rest[count..];
    }
    writer.flush().map_err(|_| WriteFault)
}

// Writes once, at least one byte.
fn write_part<W: Write>(writer: &mut W, rest: &[u8]) -> Result<usize, WriteFault>
    ensures some { IfOk result (λ count. (0 < count) × (count ≤ length rest.now)) }
    ensures bytes { MatchResult result
        (λ count. Appends (W.contents writer.old) (W.contents writer.new) (take count rest.now))
        (λ _. Appends (W.contents writer.old) (W.contents writer.new) []) }
{
    match writer.write(rest) {
        Ok(0) => Err(WriteFault),
        Ok(count) => Ok(count),
        Err(_) => Err(WriteFault),
    }
}
