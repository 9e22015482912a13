//! The program: it hands its words, standard input, an empty plant and standard output to the top call.
//!
//! `main` collects the words, sets up an empty `ModelPlant`, an empty journal and the two standard streams, makes the
//! top call and ends with its status. It has no clause of its own.
#![tactic(auto)]

use dr_io::{StdSink, StdSource};
use dr_model::Journal;
use dr_plant::ModelPlant;
use dr_top::{Status, drsim};
use std::alloc::Global;
use std::process::ExitCode;
use std::{env, io};

/// The words after the program's name.
fn words(alloc: Global, rt: &HostRuntime) -> io::Result<Vec<String>> {
    let mut words = Vec::new(alloc);
    for word in env::args(rt)?.skip(1) {
        words.push(word)?;
    }
    Ok(words)
}

fn main(rt: HostRuntime) -> ExitCode {
    let alloc = rt.alloc();
    let words = match words(alloc, &rt) {
        Ok(words) => words,
        // A word that isn't UTF-8 is no command, and nor is a list without words.
        Err(error) if error.kind() == io::ErrorKind::InvalidData => Vec::new(alloc),
        Err(_) => return ExitCode::from(Status::NoMemory.code()),
    };
    let mut source = StdSource::new(rt.stdin());
    let mut sink = StdSink::new(rt.stdout());
    let mut plant = ModelPlant::new(alloc);
    let mut journal = Journal::new(alloc);
    let status = drsim(
        alloc,
        &words,
        &mut source,
        &mut plant,
        &mut sink,
        &mut journal,
    );
    ExitCode::from(status.code())
}

#[cfg(test)]
mod tests;
