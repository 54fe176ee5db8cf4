//! What an input answers to a request.

ghost use Rattle.std.specs.Prelude.{MatchResult};
ghost use Rattle.flame_answers.specs.Inputs.Wanted.{for_store};
ghost use Rattle.flame_program.specs.Requests.{IsAnswer, IsInputFault, IsUnanswered, IsLiveText};

use crate::outcomes::ToolFault;
use flame_answers::{batch_in, export, report_on};
use flame_words::{LiveOptions, Request, Source};
use live_report::{Progress, live_text};
use profile_rows::Hashing;
use std::alloc::Global;
use std::sync::{Arc, Wait};
use std::thread::Threads;

/// The whole text that is written for an input; `hashing` says how its names, stack texts and ids are hashed. For
/// `Live`, `progress` hears of each row that is in; threads and a lock are for `Live` alone, and the other requests are
/// answered by [`report_on`] and [`export`].
///
/// # Errors
///
/// The first fault of an input that has no rows for the request; for `Live` also what kept the store's sessions from
/// their work, or the audit from a run; `NoMemory`.
pub fn answer<P: Progress, R: Threads + Wait + Sync>(
    rt: &R,
    alloc: Global,
    hashing: Hashing,
    progress: &P,
    request: &Request,
    input: &[u8],
) -> Result<Vec<u8>, ToolFault>
    ensures { MatchResult result
        (λ text. IsAnswer request.now input.now text.items)
        (λ fault. IsInputFault request.now input.now fault) }
{
    match request {
        Request::Report { source, query } => {
            let text = report_on(alloc, hashing, source, query, input)?;
            Ok(text)
        }
        Request::Export { kind, unit } => {
            let bytes = export(alloc, hashing, kind, unit, input)?;
            Ok(bytes)
        }
        Request::Live { source, options } => {
            live_report(rt, alloc, hashing, progress, source, *options, input)
        }
    }
}

/// The reports of the input's rows out of a store that several threads filled, once it was audited.
fn live_report<P: Progress, R: Threads + Wait + Sync>(
    rt: &R,
    alloc: Global,
    hashing: Hashing,
    progress: &P,
    source: &Source,
    options: LiveOptions,
    input: &[u8],
) -> Result<Vec<u8>, ToolFault>
    ensures { MatchResult result
        (λ text. IsLiveText source.now.format source.now.value options input.now text.items)
        (λ fault. IsUnanswered source.now.format (for_store options.all source.now.value) input.now fault) }
{
    let batch = batch_in(alloc, hashing, source, options.all(), input)?;
    let batch = Arc::new(alloc, batch).map_err(|_| ToolFault::NoMemory)?;
    let text = live_text(rt, alloc, hashing, progress, batch, options)?;
    Ok(text)
}
