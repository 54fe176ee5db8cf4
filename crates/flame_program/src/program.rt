//! The whole program over any reader and writer.

ghost use Rattle.std.specs.Prelude.{◌≡◌, ◌≤◌, List, ℕ, Some};
ghost use Rattle.flame_program.specs.Program.{EndsBy, IsRun, read_fault_of, unasked_outcome_of};
ghost use Rattle.flame_words.specs.Words.{request_of, texts_of};

use crate::outcomes::{Outcome, Status, ToolFault};
use crate::requests::answer;
use crate::streams::{MAX_INPUT, ReadFault, read_input, write_text};
use flame_words::{Request, WordsFault, read_words};
use live_report::Progress;
use profile_rows::Hashing;
use std::alloc::Global;
use std::io::{Read, Write};
use std::random::RandomSource;
use std::sync::Wait;
use std::thread::Threads;

/// Reads the words, then the whole input, and writes the whole report on it.
///
/// The first word is the program's name. At most `limit` bytes of input are taken, and one more shows that it is too
/// long. Nothing is written before the whole text is made. For `live`, `progress` hears of each row that is in. Maps
/// begin their hashes at random bytes of the system; where it has none, that is a fault of reading.
pub fn run<'a, T: Threads + Wait + RandomSource + Sync, P: Progress, R: Read, W: Write>(
    rt: &T,
    alloc: Global,
    progress: &P,
    words: &'a [&'a str],
    reader: &mut R,
    writer: &mut W,
    limit: usize,
) -> Status
    requires { limit ≤ MAX_INPUT }
    ensures { IsRun (texts_of words.entry.now) limit (R.remaining reader.old) (R.remaining reader.new)
        (W.contents writer.old) (W.contents writer.new) result.code result.cause }
{
    Status::of(outcome_of(rt, alloc, progress, words, reader, writer, limit))
}

/// How the run ends.
pub(crate) fn outcome_of<
    'a,
    T: Threads + Wait + RandomSource + Sync,
    P: Progress,
    R: Read,
    W: Write,
>(
    rt: &T,
    alloc: Global,
    progress: &P,
    words: &'a [&'a str],
    reader: &mut R,
    writer: &mut W,
    limit: usize,
) -> Outcome
    requires { limit ≤ MAX_INPUT }
    ensures { EndsBy (texts_of words.entry.now) limit (R.remaining reader.old) (R.remaining reader.new)
        (W.contents writer.old) (W.contents writer.new) result }
{
    match read_words(alloc, words) {
        Ok(request) => respond(rt, alloc, progress, request, reader, writer, limit),
        Err(fault) => unasked(fault),
    }
}

// How a run ends whose words ask for nothing.
fn unasked(fault: WordsFault) -> Outcome
    ensures { result ≡ unasked_outcome_of fault }
{
    match fault {
        WordsFault::Refused(text) => Outcome::Words(text),
        WordsFault::BadName => Outcome::Fault(ToolFault::Name),
        WordsFault::Sessions => Outcome::Fault(ToolFault::Sessions),
        WordsFault::NoMemory => Outcome::Fault(ToolFault::NoMemory),
    }
}

// Reads the input, makes the text, and writes it.
fn respond<T: Threads + Wait + RandomSource + Sync, P: Progress, R: Read, W: Write>(
    rt: &T,
    alloc: Global,
    progress: &P,
    request: Request,
    reader: &mut R,
    writer: &mut W,
    limit: usize,
) -> Outcome
    requires { limit ≤ MAX_INPUT }
    ensures { (words : List (List ℕ)) → request_of words ≡ Some request
        → EndsBy words limit (R.remaining reader.old) (R.remaining reader.new)
        (W.contents writer.old) (W.contents writer.new) result }
{
    let input = match read_input(alloc, reader, limit) {
        Ok(input) => input,
        Err(fault) => return Outcome::Fault(read_fault(fault)),
    };
    let Ok(hashing) = Hashing::random(rt) else {
        return Outcome::Fault(ToolFault::Read);
    };
    let text = match answer(rt, alloc, hashing, progress, &request, input.as_slice()) {
        Ok(text) => text,
        Err(fault) => return Outcome::Fault(fault),
    };
    match write_text(writer, text.as_slice()) {
        Ok(()) => Outcome::Done,
        Err(_) => Outcome::Fault(ToolFault::Write),
    }
}

// The program's fault for one of reading.
fn read_fault(fault: ReadFault) -> ToolFault
    ensures { result ≡ read_fault_of fault }
{
    match fault {
        ReadFault::Read => ToolFault::Read,
        ReadFault::TooLong => ToolFault::TooLong,
        ReadFault::NoMemory => ToolFault::NoMemory,
    }
}
