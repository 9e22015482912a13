//! Reads a folder of scenarios. The scenario NAME has its script, or what else the program reads, in NAME.dscli, what it
//! should print in NAME.out and, where it isn't 0, the status with which its run should end in NAME.status. The words
//! that the program is given stand in NAME.words, one a line; without that file they are the one word `run`.

use anyhow::{Context, Result, bail};
use dr_verdict::{
    OUTPUT, Outcome, SCRIPT, STATUS, WORDS, is_stray, script_names, status_of, words_of,
};
use std::alloc::{AllocError, Global};
use std::fs;
use std::io::ErrorKind;
use std::rt::Files;

/// The names of the files of a folder.
pub fn files<R: Files + AllocGlobal + Clone + Drop>(rt: &R, folder: &str) -> Result<Vec<String>> {
    let mut files = Vec::new(rt.alloc());
    for entry in fs::read_dir(rt, folder).context(format_args!("the folder {folder}"))? {
        files.push(String::from_str(rt.alloc(), entry?.file_name())?)?;
    }
    Ok(files)
}

/// The names of the scenarios among these files, in order. It is a fault where there are none, and where a file belongs to
/// a scenario that has no script.
pub fn scenarios(alloc: Global, files: &[String]) -> Result<Vec<&str>> {
    let mut names = script_names(alloc, files)?;
    for file in files {
        if is_stray(file, &names) {
            bail!("{file} belongs to no script");
        }
    }
    if names.is_empty() {
        bail!("the folder has no scenario");
    }
    names.sort_unstable();
    Ok(names)
}

fn path_of(alloc: Global, folder: &str, name: &str, ending: &str) -> Result<String, AllocError> {
    format!(in alloc; "{folder}/{name}{ending}")
}

fn read(
    rt: &(impl Files + AllocGlobal),
    folder: &str,
    name: &str,
    ending: &str,
) -> Result<Vec<u8>> {
    let path = path_of(rt.alloc(), folder, name, ending)?;
    fs::read(rt, path.as_str()).context(format_args!("{name}{ending}"))
}

/// What the program reads in a scenario.
pub fn input(rt: &(impl Files + AllocGlobal), folder: &str, name: &str) -> Result<Vec<u8>> {
    read(rt, folder, name, SCRIPT)
}

/// The text of a scenario's file that may be missing.
fn read_text(
    rt: &(impl Files + AllocGlobal),
    folder: &str,
    name: &str,
    ending: &str,
) -> Result<Option<String>> {
    let path = path_of(rt.alloc(), folder, name, ending)?;
    match fs::read_to_string(rt, path.as_str()) {
        Ok(text) => Ok(Some(text)),
        Err(error) if error.kind() == ErrorKind::NotFound => Ok(None),
        Err(error) => Err(error).context(format_args!("{name}{ending}")),
    }
}

/// The words that the program is given in a scenario.
pub fn words(rt: &(impl Files + AllocGlobal), folder: &str, name: &str) -> Result<Vec<String>> {
    let text = read_text(rt, folder, name, WORDS)?;
    Ok(words_of(rt.alloc(), text.as_deref())?)
}

fn stored_status(rt: &(impl Files + AllocGlobal), folder: &str, name: &str) -> Result<u8> {
    match read_text(rt, folder, name, STATUS)? {
        Some(text) => status_of(&text).context(format_args!("{name}{STATUS} has no status")),
        None => Ok(0),
    }
}

/// What the run of a scenario should come to.
pub fn stored(rt: &(impl Files + AllocGlobal), folder: &str, name: &str) -> Result<Outcome> {
    Ok(Outcome {
        printed: read(rt, folder, name, OUTPUT)?,
        status: stored_status(rt, folder, name)?,
    })
}
