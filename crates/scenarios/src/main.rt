//! Runs a folder of scenarios: each input through the top call, in memory, with what it prints and how it ends compared
//! with what is stored beside it. With the word `tables` behind the folder it runs tables of cases, too, whose scripts and images
//! are made here.
//!
//! `main` reads the folder, makes the top call of each scenario's words and input over a plant and streams in memory, and
//! prints what `dr_verdict` says. No function of it has a clause.
#![tactic(auto)]

mod damage;
mod folder;
mod run;
mod stops;
mod tables;

use anyhow::{Context, Result};
use dr_verdict::{Tally, Verdict, counts, difference, judge};
use std::env;
use std::process::ExitCode;
use std::rt::{Env, Files};

/// The status where the words are no folder.
const USAGE: u8 = 2;
/// The status where a folder can't be run.
const FAULT: u8 = 3;
/// The status where a case of a table isn't as it should be.
const DIFFERS: u8 = 1;

/// The word that asks for the tables.
const TABLES: &str = "tables";

/// The words after the program's name.
fn words(rt: &(impl Env + AllocGlobal)) -> Result<Vec<String>> {
    let mut words = Vec::new(rt.alloc());
    for word in env::args(rt)?.skip(1) {
        words.push(word)?;
    }
    Ok(words)
}

/// What the words ask for.
#[derive(Clone, Copy)]
struct Order<'a> {
    folder: &'a str,
    with_tables: bool,
}

/// The order in these words: a folder, the current one where there are no words, and the word `tables` behind it.
fn order_of(words: &[String]) -> Option<Order<'_>> {
    match words {
        [] => Some(Order {
            folder: ".",
            with_tables: false,
        }),
        [folder] => Some(Order {
            folder: folder.as_str(),
            with_tables: false,
        }),
        [folder, tables] if tables.as_str() == TABLES => Some(Order {
            folder: folder.as_str(),
            with_tables: true,
        }),
        _ => None,
    }
}

/// Runs one scenario of a folder.
fn try_scenario(rt: &(impl Files + AllocGlobal), folder: &str, name: &str) -> Result<Verdict> {
    let wanted = folder::stored(rt, folder, name)?;
    let words = folder::words(rt, folder, name)?;
    let input = folder::input(rt, folder, name)?;
    let found = run::run_program(rt.alloc(), &words, input, wanted.printed.len())?;
    Ok(judge(&wanted, &found))
}

/// Runs the scenarios of a folder, and prints a line for each that differs.
fn try_folder<R: Files + AllocGlobal + Print + Clone + Drop>(
    rt: &R,
    folder: &str,
) -> Result<Tally> {
    let files = folder::files(rt, folder)?;
    let mut verdicts = Vec::new(rt.alloc());
    for name in folder::scenarios(rt.alloc(), &files)?.iter() {
        let verdict = try_scenario(rt, folder, name).context(format_args!("{name} wasn't run"))?;
        if let Some(line) = difference(rt.alloc(), name, verdict)? {
            rt.println(line)?;
        }
        verdicts.push(verdict)?;
    }
    Ok(Tally::of(&verdicts))
}

/// Runs the folder and the tables that the words name, and gives the status to end with.
fn run_words(rt: &HostRuntime) -> Result<u8> {
    let words = words(rt)?;
    let Some(order) = order_of(&words) else {
        eprintln!(rt; "usage: scenarios [FOLDER [tables]]")?;
        return Ok(USAGE);
    };
    let tally = try_folder(rt, order.folder)?;
    rt.println(counts(rt.alloc(), tally)?)?;
    if order.with_tables && !tables::try_tables(rt)? {
        return Ok(DIFFERS);
    }
    Ok(tally.code())
}

fn main(rt: HostRuntime) -> ExitCode {
    match run_words(&rt) {
        Ok(code) => ExitCode::from(code),
        Err(error) => {
            let _ = eprintln!(rt; "scenarios: {error:#}");
            ExitCode::from(FAULT)
        }
    }
}
