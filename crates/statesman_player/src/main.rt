//! The journal player as a program: its arguments, standard input and standard output are handed to the whole call, whose status is the
//! exit status. There is no logic here.
#![tactic(auto)]

use st_io::{StdSink, StdSource};
use st_player::run_player;
use std::env;
use std::process::ExitCode;

fn main(rt: HostRuntime) -> ExitCode {
    let mut source = StdSource::new(rt.stdin());
    let mut sink = StdSink::new(rt.stdout());
    run_player(rt.alloc(), env::args(&rt), &mut source, &mut sink)
}
