//! Reading the words of the command line.

ghost use Rattle.std.specs.Prelude.{◌≡◌, ◌⊎◌, MatchResult, Some, Option, true, ⊤, codes, option_map};
ghost use Rattle.clap.specs.Words.{Text, first_of, found_of, kind_of, rows_of, subcommand_rows_of};
ghost use Rattle.flame_words.specs.Options.{is_name_if_given, is_set};
ghost use Rattle.flame_words.specs.LiveOptions.{options_of};
ghost use Rattle.flame_words.specs.Words.{IsNameFault, IsReadAs, IsUnread, Reading, asked_by, export_in, live_in};
ghost use Rattle.flame_words.specs.Words.{named_report, reading_of, report_in, stored_report, texts_of};
ghost use Rattle.flame_words.specs.Words.Reading.{refused};

use crate::command::command;
use crate::live_options::LiveOptions;
use crate::options::{
    flame_kind, format_named, given, is_set, refused_option, sessions_in, text_or, top_kind,
};
use crate::request::{Format, Request, Source};
use clap::error::ErrorKind;
use clap::{ArgMatches, Error};
use flame_report::{Kind, Query};
use pprof_profile::Text;
use profile_rows::{Name, NameFault, NoMemory};
use std::alloc::{AllocError, Global};

/// Why the words ask for nothing.
#[derive(Debug, Drop)]
pub enum WordsFault {
    /// They are refused, or ask for help: the text for the user.
    Refused(String),
    /// A focus or an ignored name can't be a name.
    BadName,
    /// A warm start beside 64 sessions.
    Sessions,
    /// Memory ran out.
    NoMemory,
}

impl From<NoMemory> for WordsFault {
    ghost use Rattle.std.specs.Prelude.{◌≡◌};
    ghost use Rattle.flame_words.specs.declared.words.WordsFault.TheVariants.{NoMemory};

    ghost from_gives = { λ _ fault. fault ≡ NoMemory };

    fn from(_error: NoMemory) -> WordsFault {
        WordsFault::NoMemory
    }
}

/// What the words ask for. The first is the program's name.
///
/// # Errors
///
/// `Refused` exactly where the command refuses the words, an option has a value that it can't have, or the words ask
/// for help; `BadName` where only a focus or an ignored name is wrong; `Sessions` where only a session for a warm start
/// is missing; `NoMemory`.
pub fn read_words<'a>(alloc: Global, words: &'a [&'a str]) -> Result<Request, WordsFault>
    ensures { IsReadAs (reading_of (texts_of words.entry.now)) result }
{
    let Ok(command) = command(alloc) else {
        return Err(WordsFault::NoMemory);
    };
    match command.try_get_matches_from(words) {
        Ok(matches) => request_in(alloc, &matches),
        Err(error) => Err(error_refusal(alloc, &error)),
    }
}

// The request of a parse.
fn request_in(alloc: Global, matches: &ArgMatches<'_>) -> Result<Request, WordsFault>
    ensures { IsReadAs (asked_by (subcommand_rows_of matches.now)) result }
{
    match matches.subcommand() {
        Some((name, options)) => named_request(alloc, name, options),
        None => Err(refusal(format!(in alloc; "error: there is no subcommand\n"))),
    }
}

// The request of a subcommand with its options.
fn named_request(alloc: Global, name: &str, options: &ArgMatches<'_>) -> Result<Request, WordsFault>
    ensures { IsReadAs (asked_by (Some (name.now, rows_of (found_of options.now)))) result }
{
    match name {
        "top" => report_in(alloc, top_kind(options), options),
        "flame" => report_in(alloc, flame_kind(options), options),
        "fold" => report_in(alloc, Some(Kind::Folded), options),
        "proto" => export_in(alloc, options),
        "live" => live_in(alloc, options),
        _ => Err(refusal(format!(in alloc; "error: there is no subcommand {name}\n"))),
    }
}

// A report of a kind, where the options have values that they can have.
fn report_in(
    alloc: Global,
    kind: Option<Kind>,
    options: &ArgMatches<'_>,
) -> Result<Request, WordsFault>
    ensures { IsReadAs (report_in kind (rows_of (found_of options.now))) result }
{
    let format = format_named(text_or(options, "format", "folded"));
    match (kind, format) {
        (Some(kind), Some(format)) => named_report(alloc, kind, format, options),
        _ => Err(value_refusal(alloc, options)),
    }
}

// A report, where both names that it filters by can be names.
fn named_report(
    alloc: Global,
    kind: Kind,
    format: Format,
    options: &ArgMatches<'_>,
) -> Result<Request, WordsFault>
    ensures { IsReadAs (named_report kind format (first_of (codes "value") (rows_of (found_of options.now)))
        (first_of (codes "focus") (rows_of (found_of options.now)))
        (first_of (codes "ignore") (rows_of (found_of options.now)))) result }
{
    let focus = name_from(alloc, given(options, "focus"))?;
    let ignore = name_from(alloc, given(options, "ignore"))?;
    let value = text_from(alloc, given(options, "value"))?;
    Ok(Request::Report {
        source: Source { format, value },
        query: Query {
            focus,
            ignore,
            value: 0,
            kind,
        },
    })
}

// The name that a text is, where it is given.
fn name_from(alloc: Global, text: Option<&str>) -> Result<Option<Name>, WordsFault>
    ensures { MatchResult result
        (λ name. (name ≡ option_map (λ t. t.now) text.entry)
        × (is_name_if_given (option_map (λ t. t.now) text.entry) ≡ true))
        (IsNameFault (option_map (λ t. t.now) text.entry)) }
{
    let Some(text) = text else {
        return Ok(None);
    };
    match Name::make(alloc, text) {
        Ok(name) => Ok(Some(name)),
        Err(NameFault::BadName) => Err(WordsFault::BadName),
        Err(NameFault::NoMemory) => Err(WordsFault::NoMemory),
    }
}

// A copy of a text, where it is given.
fn text_from(alloc: Global, text: Option<&str>) -> Result<Option<Text>, NoMemory>
    ensures { MatchResult result (λ copy. copy ≡ option_map (λ t. t.now) text.entry) (λ _. ⊤) }
{
    match text {
        Some(text) => Ok(Some(Text::copied(alloc, text)?)),
        None => Ok(None),
    }
}

// An export with its options.
fn export_in(alloc: Global, options: &ArgMatches<'_>) -> Result<Request, WordsFault>
    ensures { IsReadAs (export_in (rows_of (found_of options.now))) result }
{
    let kind = Text::copied(alloc, text_or(options, "kind", "samples"))?;
    let unit = Text::copied(alloc, text_or(options, "unit", "count"))?;
    Ok(Request::Export { kind, unit })
}

// What `live` asks for, where the options have values that they can have.
fn live_in(alloc: Global, options: &ArgMatches<'_>) -> Result<Request, WordsFault>
    ensures { IsReadAs (live_in (rows_of (found_of options.now))) result }
{
    let format = format_named(text_or(options, "format", "folded"));
    match (sessions_in(options), format) {
        (Some(sessions), Some(format)) => stored_report(alloc, sessions, format, options),
        _ => Err(value_refusal(alloc, options)),
    }
}

// The reports out of a store, where it has a session for each thread and for a warm start.
fn stored_report(
    alloc: Global,
    sessions: u32,
    format: Format,
    options: &ArgMatches<'_>,
) -> Result<Request, WordsFault>
    ensures { IsReadAs (stored_report format (first_of (codes "value") (rows_of (found_of options.now)))
        (options_of sessions (is_set (codes "all") (rows_of (found_of options.now)))
        (is_set (codes "warm") (rows_of (found_of options.now))))) result }
{
    let value = text_from(alloc, given(options, "value"))?;
    match LiveOptions::new(sessions, is_set(options, "all"), is_set(options, "warm")) {
        Some(options) => Ok(Request::Live {
            source: Source { format, value },
            options,
        }),
        None => Err(WordsFault::Sessions),
    }
}

// What is said of an option whose value it can't have.
fn value_refusal(alloc: Global, options: &ArgMatches<'_>) -> WordsFault
    ensures { IsUnread refused result }
{
    let (option, value, wanted) = refused_option(options);
    refusal(format!(in alloc;
        "error: invalid value '{value}' for '--{option}': {wanted}\n\nFor more information, try '--help'.\n"
    ))
}

// What is said of an error of the command.
fn error_refusal(alloc: Global, error: &Error) -> WordsFault
    ensures { (reading : Reading) → (kind_of error.now ≡ ErrorKind.OutOfMemory) ⊎ (reading ≡ refused)
        → IsUnread reading result }
{
    match error.kind() {
        ErrorKind::OutOfMemory => WordsFault::NoMemory,
        _ => refusal(error.to_string(alloc)),
    }
}

// The refusal with this text, where there was memory for it.
fn refusal(text: Result<String, AllocError>) -> WordsFault
    ensures { (reading : Reading) → reading ≡ refused → IsUnread reading result }
{
    match text {
        Ok(text) => WordsFault::Refused(text),
        Err(_) => WordsFault::NoMemory,
    }
}
