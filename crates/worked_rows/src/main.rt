//! Runs scripts of worked rows: `worked_rows FILE..`. Each step of a script is a command, its input, and the lines that
//! it has to give. `docs/WORKED_ROWS.md` is the page of the language.
//!
//! What a step gave in the place of what was wanted is printed with the file and the line, then the counts of each
//! file. The status is 1 where a step failed.
#![tactic(auto)]

mod commands;
mod faults;
mod hashes;
mod live;
mod program;
mod sources;
mod store;
mod streams;

use crate::commands::run_script;
use anyhow::Result;
use library_steps::Checker;
use std::io::Write;
use std::process::ExitCode;
use std::{env, fs, io};

fn main(rt: HostRuntime) -> Result<ExitCode> {
    let mut checker = Checker::new(rt.alloc());
    for name in env::args(&rt)?.skip(1) {
        let text = fs::read(&rt, name.as_str())?;
        run_script(&rt, &mut checker, name.as_str(), text.as_slice());
        io::writer(&rt).write_all(checker.report())?;
        checker.clear_report();
    }
    Ok(checker.exit_code())
}
