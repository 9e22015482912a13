//! The names of the files of a folder of scenarios, and what a stored status and stored words say.

ghost use Rattle.std.specs.Prelude.{◌≡◌, ◌↔◌, IfOk, map, string_bytes, codes, SomeIff};
ghost use Rattle.std.specs.Option.{option_copied};
ghost use Rattle.std.specs.Str.Lines.{lines};
ghost use Rattle.dr_verdict.specs.Names.{name_before, script_names, is_known, is_stray, IsStatus, status_of, words_of};

use std::alloc::{AllocError, Global};

/// What the name of a script ends with, behind the name of the scenario.
pub const SCRIPT: &str = ".dscli";
/// The same of the output that it should print.
pub const OUTPUT: &str = ".out";
/// The same of the status with which its run should end.
pub const STATUS: &str = ".status";
/// The same of the words that its run is given.
pub const WORDS: &str = ".words";

/// The words of a scenario that has no file of words.
const NO_FILE: &str = "run";

/// What stands before this ending of a file's name.
fn name_before<'a>(file: &'a str, ending: &str) -> Option<&'a str>
    ensures { option_copied result ≡ name_before file.now ending.now }
{
    file.strip_suffix(ending)
}

/// The names of the scripts among these files.
pub fn script_names(alloc: Global, files: &[String]) -> Result<Vec<&str>, AllocError>
    ensures { IfOk result (λ names. map (λ name. name.now) names.items ≡ script_names (map string_bytes files.now)) }
{
    let mut names = Vec::new(alloc);
    for file in files {
        if let Some(name) = name_before(file.as_str(), SCRIPT) {
            names.push(name)?;
        }
    }
    Ok(names)
}

/// Whether a scenario of this name is among these.
fn is_known(name: &str, names: &[&str]) -> bool
    ensures { result ≡ is_known name.now names.now }
{
    names.iter().any(|known| *known == name)
}

/// Whether this file is what a script is run with, or should print or end with, and no such script is there.
pub fn is_stray(file: &str, names: &[&str]) -> bool
    ensures { result ≡ is_stray file.now names.now }
{
    let name = name_before(file, OUTPUT)
        .or(name_before(file, STATUS))
        .or(name_before(file, WORDS));
    match name {
        Some(name) => !is_known(name, names),
        None => false,
    }
}

/// The status that stands in a text, at whose end there may be a line end.
pub fn status_of(text: &str) -> Option<u8>
    ensures { SomeIff result (IsStatus text.now) (status_of text.now) }
{
    text.trim_end().parse().ok()
}

/// The lines of a text, without their ends.
fn lines_of(alloc: Global, text: &str) -> Result<Vec<&str>, AllocError>
    ensures { IfOk result (λ found. map (λ line. line.now) found.items ≡ lines text.now) }
{
    text.lines().collect(alloc)
}

/// The words that a scenario's run is given, by its file of words: each line of it is one. Without a file it is the one
/// word `run`.
pub fn words_of(alloc: Global, text: Option<&str>) -> Result<Vec<String>, AllocError>
    ensures { IfOk result (λ words. map string_bytes words.items ≡ words_of (option_copied text.entry)) }
{
    let lines = lines_of(alloc, text.unwrap_or(NO_FILE))?;
    let mut words = Vec::new(alloc);
    for line in &lines {
        words.push(String::from_str(alloc, line)?)?;
    }
    Ok(words)
}
