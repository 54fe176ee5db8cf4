//! The arguments of `collect`.

use clap::builder::ValueParser;
use clap::{Arg, ArgAction, ArgMatches, Command, Error};
use profile_store::Rank;
use std::alloc::{AllocError, Global};

pub(crate) const ABOUT: &str = "\
    Adds up folded stacks and profiles as they come, and writes a report of each window of time";

const SOURCE: &str = "\
    A file or a named pipe with folded stacks, - for the standard input, a profile (NAME.pb), or a folder in which \
    files of both kinds come (NAME.folded, NAME.pb)";

const WINDOW: &str = "How many seconds a window lasts at most; 60 without it";

const ROWS: &str = "How many rows a window has at most; without it there is no limit";

const OUT: &str = "\
    The folder in which each window's folded report becomes a file, 1.folded and so on; without it only the last \
    window's is written, to the standard output";

const TOP: &str = "How many names the list has that is shown while a window fills; 10 without it";

const EVERY: &str = "\
    Every how many seconds that list is shown, on the standard error; without it every second at a terminal, and never \
    elsewhere";

const BY: &str = "What the names are ordered by; flat without it";

const VALUE: &str = "\
    The sample type whose values are taken of profiles, by its name; without it each profile's own choice";

/// What the arguments ask for.
#[derive(Drop)]
pub(crate) struct Options<'a> {
    pub(crate) seconds: u64,
    pub(crate) rows: Option<u64>,
    pub(crate) out: Option<&'a str>,
    pub(crate) top: u32,
    pub(crate) every: Option<u64>,
    pub(crate) rank: Rank,
    pub(crate) value: Option<&'a str>,
    pub(crate) sources: Vec<&'a str>,
}

/// Reads the arguments, of which the first is the program's name.
pub(crate) fn read_options<'a>(alloc: Global, words: &'a [&'a str]) -> Result<Options<'a>, Error> {
    let matches = command(alloc)?.try_get_matches_from(words)?;
    Ok(options_in(alloc, &matches)?)
}

fn options_in<'a>(alloc: Global, matches: &ArgMatches<'a>) -> Result<Options<'a>, AllocError> {
    let mut sources = Vec::new(alloc);
    sources.extend_from_slice(matches.get_strs("SOURCE").unwrap_or(&[]))?;
    Ok(Options {
        seconds: matches.get_one("window").unwrap_or(60),
        rows: matches.get_one("rows"),
        out: matches.get_str("out"),
        top: matches.get_one("top").unwrap_or(10),
        every: matches.get_one("every"),
        rank: match matches.get_str("by") {
            Some("cum") => Rank::Cum,
            _ => Rank::Flat,
        },
        value: matches.get_str("value"),
        sources,
    })
}

/// The command and its options.
fn command<'a>(alloc: Global) -> Result<Command<'a>, AllocError> {
    let command = Ok(Command::new(alloc, "collect").about(ABOUT));
    let command = with(command, number(alloc, "window", "SECONDS", WINDOW));
    let command = with(command, number(alloc, "rows", "NUMBER", ROWS));
    let command = with(command, option(alloc, "out", "FOLDER", OUT));
    let command = with(command, number(alloc, "top", "NUMBER", TOP));
    let command = with(command, number(alloc, "every", "SECONDS", EVERY));
    let ranks = &["flat", "cum"];
    let by = option(alloc, "by", "ORDER", BY).value_parser(ranks.as_slice());
    let command = with(with(command, by), option(alloc, "value", "TYPE", VALUE));
    let source = Arg::new(alloc, "SOURCE")
        .required(true)
        .num_args(1..)
        .action(ArgAction::Append)
        .help(SOURCE);
    with(command, source)
}

/// A command with one more option.
fn with<'a>(
    command: Result<Command<'a>, AllocError>,
    option: Arg<'a>,
) -> Result<Command<'a>, AllocError> {
    match command {
        Ok(command) => command.arg(option),
        Err(fault) => {
            drop(option);
            Err(fault)
        }
    }
}

fn option<'a>(alloc: Global, id: &'a str, value_name: &'a str, help: &'a str) -> Arg<'a> {
    Arg::new(alloc, id)
        .long(id)
        .value_name(value_name)
        .help(help)
}

/// An option whose value is a number above 0.
fn number<'a>(alloc: Global, id: &'a str, value_name: &'a str, help: &'a str) -> Arg<'a> {
    let number = ValueParser::unsigned(1, u64::from(u32::MAX));
    option(alloc, id, value_name, help).value_parser(number)
}
