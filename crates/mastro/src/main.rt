//! The program `mastro`: the top call over the words, the files and the standard output of the machine.
//! Proved here is only that it is safe and ends. What its last line hands on and ends with is read by eye.
#![tactic(auto)]

use mast_cli::program;
use mast_files::{DirFiles, StdSink};
use std::env::args;
use std::process::ExitCode;

fn main(rt: HostRuntime) -> ExitCode {
    let (mut files, mut sink) = (DirFiles::new(&rt), StdSink::new(&rt));
    ExitCode::from(program(&rt, rt.alloc(), args(&rt), &mut files, &mut sink).code())
}
