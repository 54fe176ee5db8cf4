//! The command `flame`: its subcommands, their options and their help.

ghost use Rattle.std.specs.Prelude.{◌≡◌, IfOk, false};
ghost use Rattle.clap.specs.Words.{App, app_of, new_app, rule_of, with_rule, with_subcommand};
ghost use Rattle.flame_words.specs.Words.{HasRules, default_rule, flag_rule, flame_app, flame_graph_app, fold_app};
ghost use Rattle.flame_words.specs.Words.{live_app, option_rule, program_app, proto_app, top_app, with_filters};
ghost use Rattle.flame_words.specs.Words.{with_source};

use clap::{Arg, ArgAction, Command};
use std::alloc::{AllocError, Global};

/// A command that is being made, or that there was no memory for.
type Making<'a> = Result<Command<'a>, AllocError>;

// A subcommand without options.
fn named<'a>(alloc: Global, name: &'a str, about: &'a str, after_help: &'a str) -> Making<'a>
    ensures { IfOk result (HasRules (new_app name.entry.now)) }
{
    let command = Command::new(alloc, name)
        .about(about)
        .after_help(after_help);
    Ok(command)
}

// With an option that is the command's own.
fn with_own<'a>(command: Making<'a>, option: Arg<'a>) -> Making<'a>
    requires { option.global ≡ false }
    ensures { (app : App) → IfOk command.entry (HasRules app)
        → IfOk result (HasRules (with_rule app (rule_of option.entry))) }
{
    match command {
        Ok(command) => command.arg(option),
        Err(fault) => {
            drop(option);
            Err(fault)
        }
    }
}

// With an option that has a value.
fn with_option<'a>(
    alloc: Global,
    command: Making<'a>,
    id: &'a str,
    value_name: &'a str,
    text: &'a str,
) -> Making<'a>
    ensures { (app : App) → IfOk command.entry (HasRules app)
        → IfOk result (HasRules (with_rule app (option_rule id.entry.now))) }
{
    let option = Arg::new(alloc, id)
        .long(id)
        .value_name(value_name)
        .help(text);
    with_own(command, option)
}

// With an option that has a value, and this one where it isn't given.
fn with_default<'a>(
    alloc: Global,
    command: Making<'a>,
    id: &'a str,
    default: &'a str,
    value_name: &'a str,
    text: &'a str,
) -> Making<'a>
    ensures { (app : App) → IfOk command.entry (HasRules app)
        → IfOk result (HasRules (with_rule app (default_rule id.entry.now default.entry.now))) }
{
    let option = Arg::new(alloc, id)
        .long(id)
        .value_name(value_name)
        .help(text)
        .default_value(default);
    with_own(command, option)
}

// With an option that has no value.
fn with_flag<'a>(alloc: Global, command: Making<'a>, id: &'a str, text: &'a str) -> Making<'a>
    ensures { (app : App) → IfOk command.entry (HasRules app)
        → IfOk result (HasRules (with_rule app (flag_rule id.entry.now))) }
{
    let option = Arg::new(alloc, id)
        .long(id)
        .help(text)
        .action(ArgAction::SetTrue);
    with_own(command, option)
}

const FORMAT: &str = "\
    How the input is written: folded (stacks, as collapse scripts write them) or pprof (profile.proto, \
    unpacked: gunzip -c cpu.pb.gz | flame top --format pprof)";

const VALUE: &str = "\
    The sample type of a pprof profile whose values are the weights, by its name, such as cpu or alloc_space; \
    without it the profile's own choice";

// With the options that say how the input is read.
fn with_source<'a>(alloc: Global, command: Making<'a>) -> Making<'a>
    ensures { (app : App) → IfOk command.entry (HasRules app) → IfOk result (HasRules (with_source app)) }
{
    let command = with_default(alloc, command, "format", "folded", "FORMAT", FORMAT);
    with_option(alloc, command, "value", "TYPE", VALUE)
}

const FOCUS: &str = "Count only stacks that have a frame of exactly this name, in totals too";

const IGNORE: &str = "Leave out stacks that have a frame of exactly this name, in totals too";

// With the options of a report of stacks: how the input is read, and which stacks are kept.
fn with_report_options<'a>(alloc: Global, command: Making<'a>) -> Making<'a>
    ensures { (app : App) → IfOk command.entry (HasRules app)
        → IfOk result (HasRules (with_filters (with_source app))) }
{
    let command = with_source(alloc, command);
    let command = with_option(alloc, command, "focus", "NAME", FOCUS);
    with_option(alloc, command, "ignore", "NAME", IGNORE)
}

const ABOUT_TOP: &str = "Lists the names that weigh most";

const AFTER_TOP: &str = "\
The first line of output has the total. Each line after it has the flat weight of a name (the
stacks that end with it), its cumulative weight (the stacks that contain it, each once), and the
name.

Examples:
  $ printf 'main;a;b 3\\nmain;a 2\\nmain;c 5\\n' | flame top
  total 10
  5 5 c
  3 3 b
  2 5 a
  0 10 main
  $ gunzip -c cpu.pb.gz | flame top --format pprof --by cum --count 10 --focus main.work";

const BY: &str = "\
    What the names are ordered by: flat (the weight of stacks that end with the name) or cum (of stacks that \
    contain it)";

const COUNT: &str = "How many names are listed at most; the total stays as it is";

// The subcommand `top`.
fn top_command<'a>(alloc: Global) -> Making<'a>
    ensures { IfOk result (HasRules top_app) }
{
    let command = named(alloc, "top", ABOUT_TOP, AFTER_TOP);
    let command = with_report_options(alloc, command);
    let command = with_default(alloc, command, "by", "flat", "ORDER", BY);
    with_default(alloc, command, "count", "20", "NUMBER", COUNT)
}

const ABOUT_FLAME: &str = "Lays out a flame graph as JSON";

const AFTER_FLAME: &str = "\
As flamegraph.pl draws it: a rectangle for each prefix of a stack that is a column wide or
more, siblings in the order of names, from the left edge of what they stand on. depth is how many
frames it has, x and weight where it starts and how wide it is in the input's unit, left and right
the columns that it takes.

Examples:
  $ printf 'main;a 2\\nmain;c 5\\n' | flame flame --columns 1
  {\"columns\":1,\"rects\":[{\"depth\":0,\"left\":0,\"name\":\"\",\"right\":1,\"weight\":7,\"x\":0},..],\"total\":7}
  $ gunzip -c cpu.pb.gz | flame flame --format pprof --columns 1200 --ignore runtime.gcBgMarkWorker";

const COLUMNS: &str = "\
    How many columns the whole graph takes, 1 to 65535; a rectangle that takes none of them is left out";

// The subcommand `flame`.
fn flame_graph_command<'a>(alloc: Global) -> Making<'a>
    ensures { IfOk result (HasRules flame_graph_app) }
{
    let command = named(alloc, "flame", ABOUT_FLAME, AFTER_FLAME);
    let command = with_report_options(alloc, command);
    with_default(alloc, command, "columns", "100", "NUMBER", COLUMNS)
}

const ABOUT_FOLD: &str = "Adds up equal stacks";

const AFTER_FOLD: &str = "\
The output is folded stacks: each stack once with its whole weight, in the order of stacks as
lists of names. Stacks of weight 0 are left out.

Examples:
  $ printf 'main;a 2\\nmain 1\\nmain;a 3\\n' | flame fold
  main 1
  main;a 5
  $ gunzip -c heap.pb.gz | flame fold --format pprof --value alloc_space | flamegraph.pl > heap.svg";

// The subcommand `fold`.
fn fold_command<'a>(alloc: Global) -> Making<'a>
    ensures { IfOk result (HasRules fold_app) }
{
    let command = named(alloc, "fold", ABOUT_FOLD, AFTER_FOLD);
    with_report_options(alloc, command)
}

const ABOUT_PROTO: &str = "Writes folded stacks as a pprof profile";

const AFTER_PROTO: &str = "\
The input is folded stacks. The output is a message of pprof's profile.proto with a sample for
each line, which other tools open.

Example:
  $ flame proto --kind cpu --unit nanoseconds < stacks.folded > stacks.pb
  $ go tool pprof -top stacks.pb";

const KIND: &str = "The name of the profile's sample type; it changes no number";

const UNIT: &str = "The unit of the profile's sample type; it changes no number";

// The subcommand `proto`.
fn proto_command<'a>(alloc: Global) -> Making<'a>
    ensures { IfOk result (HasRules proto_app) }
{
    let command = named(alloc, "proto", ABOUT_PROTO, AFTER_PROTO);
    let command = with_default(alloc, command, "kind", "samples", "KIND", KIND);
    with_default(alloc, command, "unit", "count", "UNIT", UNIT)
}

const ABOUT_LIVE: &str =
    "Adds up equal stacks in a store that several threads fill, and audits what they were told";

const AFTER_LIVE: &str = "\
Each stack goes to the next of the threads, which adds it to one store in memory. At the end each
thread asks for the total, and all that it was told is compared with the store's journal. Where
they agree, the output is that of fold, and a line that counts the operations of all threads. With
--all there is a line with the number of each value before its stacks.

Examples:
  $ printf 'main;a 2\\nmain 1\\nmain;a 3\\n' | flame live --sessions 3
  main 1
  main;a 5
  audited 6 operations
  $ gunzip -c heap.pb.gz | flame live --format pprof --all --sessions 8";

const ALL: &str = "\
    Take all sample types of a pprof profile, at most four, and write a report for each; --value has no effect then";

const WARM: &str = "\
    First add all stacks by one session more, ask for the total and reset the store; it changes no report";

const SESSIONS: &str = "\
    How many threads add stacks, 1 to 64, or 1 to 63 with --warm; it changes no report but the last line";

// The subcommand `live`.
fn live_command<'a>(alloc: Global) -> Making<'a>
    ensures { IfOk result (HasRules live_app) }
{
    let command = named(alloc, "live", ABOUT_LIVE, AFTER_LIVE);
    let command = with_source(alloc, command);
    let command = with_flag(alloc, command, "all", ALL);
    let command = with_flag(alloc, command, "warm", WARM);
    with_default(alloc, command, "sessions", "2", "NUMBER", SESSIONS)
}

const ABOUT: &str =
    "Reads stacks with their weights from the standard input, and writes a report on them";

const AFTER_PROGRAM: &str = "\
Example:
  $ printf 'main;a;b 3\\nmain;a 2\\nmain;c 5\\n' | flame fold --focus a
  main;a 2
  main;a;b 3";

// The command `flame` without its subcommands.
fn bare_command<'a>(alloc: Global) -> Making<'a>
    ensures { IfOk result (λ command. app_of command ≡ flame_app) }
{
    let command = Command::new(alloc, "flame")
        .bin_name("flame")?
        .about(ABOUT)
        .after_help(AFTER_PROGRAM)
        .subcommand_required(true);
    Ok(command)
}

// With a subcommand.
fn with_subcommand<'a>(command: Making<'a>, subcommand: Making<'a>) -> Making<'a>
    ensures { (app sub : App) → IfOk command.entry (λ command. app_of command ≡ app)
        → IfOk subcommand.entry (HasRules sub)
        → IfOk result (λ with. app_of with ≡ with_subcommand app sub.top) }
{
    command?.subcommand(subcommand?)
}

/// The command `flame`, with its subcommands and their texts.
pub(crate) fn command<'a>(alloc: Global) -> Result<Command<'a>, AllocError>
    ensures { IfOk result (λ command. app_of command ≡ program_app) }
{
    let command = with_subcommand(bare_command(alloc), top_command(alloc));
    let command = with_subcommand(command, flame_graph_command(alloc));
    let command = with_subcommand(command, fold_command(alloc));
    let command = with_subcommand(command, proto_command(alloc));
    with_subcommand(command, live_command(alloc))
}
