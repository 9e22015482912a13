//! The program `sweep`: it hands its words, standard input, standard output and standard error to the call of `dr_sweep`; for words that compare
//! two plans it opens their files, and hands these to the call in the place of standard input.
//!
//! `main` collects the words, sets up the streams, makes the call and ends with its status. It has no clause of its own, so none says that a name
//! opens the file of that name.
#![tactic(auto)]

use dr_io::{Sink, StdSink, StdSource};
use dr_sweep::{Ending, compare, sweep, usage};
use dr_words::{Comparison, comparison_of};
use std::alloc::Global;
use std::fs::File;
use std::process::ExitCode;
use std::{env, io};

/// The words after the program's name.
fn words(alloc: Global, rt: &HostRuntime) -> io::Result<Vec<String>> {
    let mut words = Vec::new(alloc);
    for word in env::args(rt)?.skip(1) {
        words.push(word)?;
    }
    Ok(words)
}

/// Opens both files, and compares the plans in them.
fn compare_files<K: Sink, Q: Sink>(
    alloc: Global,
    rt: &HostRuntime,
    asked: &Comparison,
    sink: &mut K,
    progress: &mut Q,
) -> Ending {
    let Ok(first) = File::open(rt, asked.first()) else {
        return Ending::ReadFault;
    };
    let Ok(second) = File::open(rt, asked.second()) else {
        return Ending::ReadFault;
    };
    let mut first = StdSource::new(first);
    let mut second = StdSource::new(second);
    compare(alloc, asked, &mut first, &mut second, sink, progress)
}

fn main(rt: HostRuntime) -> ExitCode {
    let alloc = rt.alloc();
    let mut sink = StdSink::new(rt.stdout());
    let words = match words(alloc, &rt) {
        Ok(words) => words,
        // A word that isn't UTF-8 is no command.
        Err(error) if error.kind() == io::ErrorKind::InvalidData => {
            return ExitCode::from(usage(&mut sink).code());
        }
        Err(_) => return ExitCode::from(Ending::NoMemory.code()),
    };
    let mut progress = StdSink::new(rt.stderr());
    let ending = match comparison_of(alloc, &words) {
        Ok(Some(asked)) => compare_files(alloc, &rt, &asked, &mut sink, &mut progress),
        Ok(None) => {
            let mut source = StdSource::new(rt.stdin());
            sweep(alloc, &words, &mut source, &mut sink, &mut progress)
        }
        Err(_) => Ending::NoMemory,
    };
    ExitCode::from(ending.code())
}
