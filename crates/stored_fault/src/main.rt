//! The program `flame` once more, as `flame_tool` has it, for a second stored run: a crate has one.
//!
//! A fault ends this one: several options, more than 64 KiB of folded text, and no count in the last line. So the gate
//! sees that the exit status is the cause's, and that nothing goes to the standard output.
#![tactic(auto)]

use flame_program::run_on_host;
use std::process::ExitCode;

fn main(rt: HostRuntime) -> ExitCode {
    run_on_host(&rt, rt)
}
