//! What the options of a subcommand mean.

ghost use Rattle.std.specs.Prelude.{◌≡◌, ◌^◌, ◌<◌, ◌≤◌, MatchOption, option_map};
ghost use Rattle.std.specs.List.{list_all};
ghost use Rattle.std.specs.Str.Parse.{IsNumeral, digits_value};
ghost use Rattle.clap.specs.Words.{first_of, found_of, rows_of};
ghost use Rattle.flame_words.specs.Options.{columns_of, flame_kind, format_named, is_digit, is_number, is_set};
ghost use Rattle.flame_words.specs.Options.{number_named, rank_named, sessions_in, sessions_of, text_or, top_kind};

use crate::request::Format;
use clap::ArgMatches;
use flame_report::{Columns, Kind, Rank};
use op_book::MAX_SESSIONS;

/// The value of an option, where it has one.
pub(crate) fn given<'a>(matches: &ArgMatches<'a>, id: &str) -> Option<&'a str>
    ensures { option_map (λ text. text.now) result ≡ first_of id.now (rows_of (found_of matches.now)) }
{
    matches.get_str(id)
}

/// The value of an option, or its default.
pub(crate) fn text_or<'a>(matches: &ArgMatches<'a>, id: &str, default: &'a str) -> &'a str
    ensures { result.now ≡ text_or default.entry.now id.now (rows_of (found_of matches.now)) }
{
    match given(matches, id) {
        Some(text) => text,
        None => default,
    }
}

/// Whether an option without a value is given.
pub(crate) fn is_set(matches: &ArgMatches<'_>, id: &str) -> bool
    ensures { result ≡ is_set id.now (rows_of (found_of matches.now)) }
{
    text_or(matches, id, "false") == "true"
}

/// The format of the input.
pub(crate) fn format_named(text: &str) -> Option<Format>
    ensures { result ≡ format_named text.now }
{
    match text {
        "folded" => Some(Format::Folded),
        "pprof" => Some(Format::Pprof),
        _ => None,
    }
}

fn rank_named(text: &str) -> Option<Rank>
    ensures { result ≡ rank_named text.now }
{
    match text {
        "flat" => Some(Rank::Flat),
        "cum" => Some(Rank::Cum),
        _ => None,
    }
}

fn is_digit(byte: u8) -> bool
    ensures { result ≡ is_digit byte }
{
    b'0' <= byte && byte <= b'9'
}

fn are_digits(bytes: &[u8]) -> bool
    ensures { result ≡ list_all is_digit bytes.now }
{
    bytes.iter().all(|byte| is_digit(*byte))
}

fn is_number(text: &str) -> bool
    ensures { result ≡ is_number text.now }
{
    !text.is_empty() && are_digits(text.as_bytes())
}

/// The number that digits write, where 32 bits hold it.
fn number_of(digits: &str) -> Option<u32>
    requires { IsNumeral 10 digits.now }
    ensures { MatchOption result (2 ^ 32 ≤ digits_value 10 digits.now)
        (λ number. (number ≡ digits_value 10 digits.now) × (number < 2 ^ 32)) }
{
    digits.parse::<u32>().ok()
}

/// The number that decimal digits write, where 32 bits hold it.
fn number_named(text: &str) -> Option<u32>
    ensures { result ≡ number_named text.now }
{
    if !is_number(text) {
        return None;
    }
    number_of(text)
}

fn columns_of(number: Option<u32>) -> Option<Columns>
    ensures { result ≡ columns_of number }
{
    match number {
        Some(number) => Columns::new(number),
        None => None,
    }
}

// A number of threads.
fn sessions_of(number: Option<u32>) -> Option<u32>
    ensures { result ≡ sessions_of number }
{
    match number {
        Some(number) if number != 0 && number <= MAX_SESSIONS => Some(number),
        _ => None,
    }
}

/// How many threads of `live` add stacks.
pub(crate) fn sessions_in(matches: &ArgMatches<'_>) -> Option<u32>
    ensures { result ≡ sessions_in (rows_of (found_of matches.now)) }
{
    sessions_of(number_named(text_or(matches, "sessions", "2")))
}

/// The report of `top`.
pub(crate) fn top_kind(matches: &ArgMatches<'_>) -> Option<Kind>
    ensures { result ≡ top_kind (rows_of (found_of matches.now)) }
{
    let rank = rank_named(text_or(matches, "by", "flat"))?;
    let count = number_named(text_or(matches, "count", "20"))?;
    Some(Kind::Top { rank, count })
}

/// The report of `flame`.
pub(crate) fn flame_kind(matches: &ArgMatches<'_>) -> Option<Kind>
    ensures { result ≡ flame_kind (rows_of (found_of matches.now)) }
{
    let columns = columns_of(number_named(text_or(matches, "columns", "100")))?;
    Some(Kind::Flame { columns })
}

/// An option whose value it can't have, that value, and what it can have.
pub(crate) fn refused_option<'a>(
    matches: &ArgMatches<'a>,
) -> (&'static str, &'a str, &'static str) {
    let format = text_or(matches, "format", "folded");
    let rank = text_or(matches, "by", "flat");
    let count = text_or(matches, "count", "20");
    if format_named(format).is_none() {
        ("format", format, "folded or pprof")
    } else if rank_named(rank).is_none() {
        ("by", rank, "flat or cum")
    } else if number_named(count).is_none() {
        ("count", count, "a number from 0 to 4294967295")
    } else if sessions_in(matches).is_none() {
        (
            "sessions",
            text_or(matches, "sessions", "2"),
            "a number from 1 to 64",
        )
    } else {
        (
            "columns",
            text_or(matches, "columns", "100"),
            "a number from 1 to 65535",
        )
    }
}
