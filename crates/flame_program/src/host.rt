//! The program on the process that it is: the process's own words and streams.

use crate::process::run_process;
use crate::shown_rows::ShownRows;
use std::env;
use std::process::ExitCode;
use std::random::RandomSource;
use std::sync::Wait;
use std::thread::Threads;

/// The whole of `main`: runs on the process's words and its three streams, and gives the exit status. Threads are those
/// of `threads`, which `main` has of its runtime. Where the standard error is a terminal, it shows how many rows of
/// `live` are in; else nothing comes there but what there is to say of the end.
///
/// It has no clause, since none knows what a process's words and streams are. The stored runs of the programs that call
/// it show that it takes all of both, and that the status is the cause's.
pub fn run_on_host<T: Threads + Wait + RandomSource + Sync>(
    threads: &T,
    rt: HostRuntime,
) -> ExitCode {
    let end = run_process(
        threads,
        rt.alloc(),
        &ShownRows::new(rt.stderr()),
        env::args(&rt),
        &mut rt.stdin(),
        &mut rt.stdout(),
        &mut rt.stderr(),
    );
    // Nothing is left to do where the standard error couldn't be written.
    end.code
}
