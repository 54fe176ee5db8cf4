//! The program `collect`. Its stored run adds up three files.
#![tactic(auto)]

use collecting::run;
use std::process::ExitCode;

fn main(rt: HostRuntime) -> ExitCode {
    run(&rt, rt)
}
