//! The program `flame`: reads stacks from the standard input, and writes the report that its words ask for. Its stored
//! run is the top list of three stacks.
#![tactic(auto)]

use flame_program::run_on_host;
use std::process::ExitCode;

fn main(rt: HostRuntime) -> ExitCode {
    run_on_host(&rt, rt)
}
