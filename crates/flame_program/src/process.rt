//! The program in a process: its words and its three streams, its exit status, and what it says of its end.

ghost use Rattle.std.specs.Prelude.{◌≡◌, IfOk, IfErr, map, string_bytes};
ghost use Rattle.std.specs.Io.KnownBytes.{Keeps};
ghost use Rattle.std.specs.IoError.{error_kind};
ghost use Rattle.std.specs.Process.{exit_status};
ghost use Rattle.std.specs.Vec.Iter.{into_iter_items};
ghost use Rattle.flame_program.specs.Outcomes.{code_of};
ghost use Rattle.flame_program.specs.Process.{IsSaid, IsUnreadCause, IsUnreadEnd};
ghost use Rattle.flame_program.specs.Program.{EndsBy, IsRun};
ghost use Rattle.flame_words.specs.Words.{texts_of};

use crate::outcomes::{Outcome, Status, ToolFault};
use crate::program::outcome_of;
use crate::streams::MAX_INPUT;
use live_report::Progress;
use std::alloc::{AllocError, Global};
use std::env::Args;
use std::io;
use std::io::{ErrorKind, Read, Write};
use std::process::ExitCode;
use std::random::RandomSource;
use std::sync::Wait;
use std::thread::Threads;

/// How a process ends.
#[derive(Drop)]
pub struct End {
    /// The exit status.
    pub code: ExitCode,
    /// Whether the error writer took what there is to say.
    pub said: io::Result<()>,
}

/// The whole program, over the words and the three streams of a process.
///
/// The first word is the program's name. At most 268,435,456 bytes of input are taken. The writer gets the report
/// alone, and the error writer what there is to say of another end. For `live`, `progress` hears of each row that is
/// in.
pub fn run_process<
    T: Threads + Wait + RandomSource + Sync,
    P: Progress,
    R: Read,
    W: Write,
    E: Write,
>(
    rt: &T,
    alloc: Global,
    progress: &P,
    words: io::Result<Args>,
    reader: &mut R,
    writer: &mut W,
    errors: &mut E,
) -> End
    // It is a run of the program, its exit status is the cause's, and the cause is said.
    ensures ran { IfOk words (λ words. (cause : Outcome) × IsRun (map string_bytes (into_iter_items words)) MAX_INPUT
        (R.remaining reader.old) (R.remaining reader.new) (W.contents writer.old) (W.contents writer.new)
        (exit_status result.code) cause × IsSaid (E.contents errors.old) (E.contents errors.new) cause result.said) }
    // Where the words can't be had, nothing is read or written, and it ends with 2 and a text that says so, or with 4.
    ensures unread { IfErr words (λ error. (cause : Outcome) × IsUnreadEnd (error_kind error)
        (R.remaining reader.old) (R.remaining reader.new) (W.contents writer.old) (W.contents writer.new)
        (exit_status result.code) cause × IsSaid (E.contents errors.old) (E.contents errors.new) cause result.said) }
{
    let cause = run_words(rt, alloc, progress, words, reader, writer);
    let said = say(errors, &cause);
    End {
        code: exit_code(cause),
        said,
    }
}

// The exit status of a process that ends so.
fn exit_code(cause: Outcome) -> ExitCode
    ensures { exit_status result ≡ code_of cause }
{
    ExitCode::from(Status::of(cause).code)
}

// Says the cause on the error writer: nothing where the report was written.
fn say<E: Write>(errors: &mut E, cause: &Outcome) -> io::Result<()>
    ensures { IsSaid (E.contents errors.old) (E.contents errors.new) cause.now result }
{
    write!(errors, "{cause}")
}

// How the run on the words ends, where they can be had.
fn run_words<T: Threads + Wait + RandomSource + Sync, P: Progress, R: Read, W: Write>(
    rt: &T,
    alloc: Global,
    progress: &P,
    words: io::Result<Args>,
    reader: &mut R,
    writer: &mut W,
) -> Outcome
    ensures ends { IfOk words (λ words. EndsBy (map string_bytes (into_iter_items words)) MAX_INPUT
        (R.remaining reader.old) (R.remaining reader.new) (W.contents writer.old) (W.contents writer.new) result) }
    ensures unread { IfErr words (λ error. IsUnreadCause (error_kind error) result
        × Keeps (R.remaining reader.old) (R.remaining reader.new)
        × Keeps (W.contents writer.old) (W.contents writer.new)) }
{
    match words {
        Ok(words) => run_args(rt, alloc, progress, words, reader, writer),
        Err(error) => unread_words(alloc, &error),
    }
}

// How the run on all of the words ends.
fn run_args<T: Threads + Wait + RandomSource + Sync, P: Progress, R: Read, W: Write>(
    rt: &T,
    alloc: Global,
    progress: &P,
    words: Args,
    reader: &mut R,
    writer: &mut W,
) -> Outcome
    ensures { EndsBy (map string_bytes (into_iter_items words)) MAX_INPUT (R.remaining reader.old)
        (R.remaining reader.new) (W.contents writer.old) (W.contents writer.new) result }
{
    match owned_words(alloc, words) {
        Ok(words) => run_texts(rt, alloc, progress, words.as_slice(), reader, writer),
        Err(_) => Outcome::Fault(ToolFault::NoMemory),
    }
}

// The words that are left.
fn owned_words(alloc: Global, words: Args) -> Result<Vec<String>, AllocError>
    ensures { IfOk result (λ owned. owned.items ≡ into_iter_items words) }
{
    words.collect(alloc)
}

// How the run on the texts of the words ends.
fn run_texts<T: Threads + Wait + RandomSource + Sync, P: Progress, R: Read, W: Write>(
    rt: &T,
    alloc: Global,
    progress: &P,
    words: &[String],
    reader: &mut R,
    writer: &mut W,
) -> Outcome
    ensures { EndsBy (map string_bytes words.now) MAX_INPUT (R.remaining reader.old) (R.remaining reader.new)
        (W.contents writer.old) (W.contents writer.new) result }
{
    match texts_in(alloc, words) {
        Ok(texts) => {
            let texts = texts.as_slice();
            outcome_of(rt, alloc, progress, texts, reader, writer, MAX_INPUT)
        }
        Err(_) => Outcome::Fault(ToolFault::NoMemory),
    }
}

// The texts of words.
fn texts_in<'a>(alloc: Global, words: &'a [String]) -> Result<Vec<&'a str>, AllocError>
    ensures { IfOk result (λ texts. texts_of texts.items ≡ map string_bytes words.entry.now) }
{
    words.iter().map(|word| word.as_str()).collect(alloc)
}

// The cause of an end where the words can't be had: some word isn't text, or memory ran out.
fn unread_words(alloc: Global, error: &io::Error) -> Outcome
    ensures { IsUnreadCause (error_kind error.now) result }
{
    if error.kind() == ErrorKind::OutOfMemory {
        return Outcome::Fault(ToolFault::NoMemory);
    }
    match format!(in alloc; "error: the words aren't text: {error}\n") {
        Ok(text) => Outcome::Words(text),
        Err(_) => Outcome::Fault(ToolFault::NoMemory),
    }
}
