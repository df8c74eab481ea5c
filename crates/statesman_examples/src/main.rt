//! Runs the documents of `data/`, which are the examples of this repository, and prints what the program writes of each, so that
//! the gate compares it with the file `stdout`. Each argument is a run as it is typed behind `./statesman`: `serial <two_path.txt`.
#![tactic(auto)]

use st_crew::NoGate;
use st_io::{SureSink, SureSource};
use st_top::{Outcome, statesman};
use std::alloc::{AllocError, Global};
use std::io::Write;
use std::{env, fs, io};

/// What a run is given: its words, and the name of the document that it reads, which `<` stands before.
#[derive(Drop)]
struct Run {
    words: Vec<String>,
    document: Option<String>,
}

/// The run that is typed so.
fn run_of(alloc: Global, typed: &str) -> Result<Run, AllocError> {
    let mut words = Vec::new(alloc);
    let mut document = None;
    for word in typed.split_whitespace() {
        match word.strip_prefix('<') {
            Some(name) => document = Some(String::from_str(alloc, name)?),
            None => words.push(String::from_str(alloc, word)?)?,
        }
    }
    Ok(Run { words, document })
}

/// The bytes that a run reads: none where it names no document.
fn input_of(rt: &HostRuntime, run: &Run) -> io::Result<Vec<u8>> {
    match &run.document {
        Some(name) => fs::read(rt, name.as_str()),
        None => Ok(Vec::new(rt.alloc())),
    }
}

/// Prints a run as it is typed, what the whole call wrote of it, and its exit status.
fn show(rt: &HostRuntime, typed: &str, sink: &SureSink, outcome: &Outcome) -> io::Result<()> {
    println!(rt; "$ ./statesman {typed}")?;
    io::writer(rt).write_all(sink.bytes())?;
    println!(rt; "exit {}\n", outcome.status.exit_code())
}

fn main(rt: HostRuntime) -> io::Result<()> {
    let alloc = rt.alloc();
    for typed in env::args(&rt)?.skip(1) {
        let run = run_of(alloc, typed.as_str())?;
        let mut source = SureSource::new(input_of(&rt, &run)?);
        let mut sink = SureSink::new(alloc);
        let words = run.words.as_slice();
        let outcome = statesman(&rt, alloc, words, &mut source, &mut sink, &NoGate);
        show(&rt, typed.as_str(), &sink, &outcome)?;
    }
    Ok(())
}
