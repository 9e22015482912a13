ghost use Rattle.std.specs.Prelude.{◌≡◌, IfOk, Some, map, string_bytes};
ghost use Rattle.clap.specs.Words.{found_of, rows_of, subcommand_rows_of};
ghost use Rattle.dr_words.specs.Compare.{are_names, asks_picture, comparison_of, has_form, met_comparison, names_in, names_said};

use crate::sweep::has_option;
use crate::sweep_line::{FILES, sweep_line};
use clap::ArgMatches;
use clap::error::ErrorKind;
use std::alloc::{AllocError, Global};
use std::marker::Model;

/// What is printed of two plans.
#[derive(Clone, Copy)]
pub enum ComparedView {
    /// A table of what each loses at worst.
    Table,
    /// The charts of both.
    Picture,
}

/// Two plans that are compared, by the names of their files.
#[derive(Drop)]
pub struct Comparison {
    view: ComparedView,
    first: String,
    second: String,
}

impl Model for Comparison {
    ghost use Rattle.std.specs.Prelude.{string_bytes};
    ghost use Rattle.dr_words.specs.Compare.{Compared};

    ghost Value = { Compared };

    ghost view = { λ c. record { view = c.view; first = string_bytes c.first; second = string_bytes c.second } };
}

impl Comparison {
    /// What is printed.
    pub fn view(&self) -> ComparedView
        ensures { result ≡ self.now.view }
    {
        self.view
    }

    /// The name of the first file.
    pub fn first(&self) -> &str
        ensures { result.now ≡ self.now.first }
    {
        self.first.as_str()
    }

    /// The name of the second file.
    pub fn second(&self) -> &str
        ensures { result.now ≡ self.now.second }
    {
        self.second.as_str()
    }
}

/// The comparison that the words name, without the program's own name: `compare`, `picture` or not, and the names of two files; `None` for all
/// other words. Fails only where memory is wanting.
pub fn comparison_of(alloc: Global, words: &[String]) -> Result<Option<Comparison>, AllocError>
    ensures { IfOk result (λ comparison. comparison ≡ comparison_of words.now) }
{
    if !has_form(words) {
        return Ok(None);
    }
    match sweep_line(alloc)?.try_get_matches_from(words) {
        Ok(matches) => met_comparison(alloc, &matches),
        Err(error) if error.kind() == ErrorKind::OutOfMemory => Err(AllocError),
        Err(_) => Ok(None),
    }
}

/// Whether these are `compare` and the names of files, with a word before them or none.
fn has_form(words: &[String]) -> bool
    ensures { result ≡ has_form words.now }
{
    match words {
        [] => false,
        [name, rest @ ..] => name.as_str() == "compare" && are_names(rest),
    }
}

/// Whether these are two or three words of which none begins with a hyphen: `clap` would read that as an option or as `--`.
fn are_names(words: &[String]) -> bool
    ensures { result ≡ are_names words.now }
{
    2 <= words.len() && words.len() <= 3 && !has_option(words)
}

/// The comparison of the subcommand that was met.
fn met_comparison(alloc: Global, matches: &ArgMatches<'_>) -> Result<Option<Comparison>, AllocError>
    ensures { IfOk result (λ comparison. comparison ≡ met_comparison (subcommand_rows_of matches.now)) }
{
    match matches.subcommand() {
        Some((_, values)) => names_in(alloc, values),
        None => Ok(None),
    }
}

/// The comparison of the words that `compare` was given.
fn names_in(alloc: Global, values: &ArgMatches<'_>) -> Result<Option<Comparison>, AllocError>
    ensures { IfOk result (λ comparison. comparison ≡ names_in (rows_of (found_of values.now))) }
{
    match values.get_strs(FILES) {
        Some(words) => names_said(alloc, words),
        None => Ok(None),
    }
}

/// Whether the word asks for charts.
fn asks_picture(word: &str) -> bool
    ensures { result ≡ asks_picture word.now }
{
    word == "picture"
}

/// What these words say: two names, or `picture` and two names.
fn names_said(alloc: Global, words: &[&str]) -> Result<Option<Comparison>, AllocError>
    ensures { IfOk result (λ comparison. comparison ≡ names_said (map (λ word. word.now) words.now)) }
{
    match words {
        [first, second] if !asks_picture(first) => {
            compared(alloc, ComparedView::Table, first, second)
        }
        [word, first, second] if asks_picture(word) => {
            compared(alloc, ComparedView::Picture, first, second)
        }
        _ => Ok(None),
    }
}

/// The comparison of two files by their names.
fn compared(
    alloc: Global,
    view: ComparedView,
    first: &str,
    second: &str,
) -> Result<Option<Comparison>, AllocError>
    ensures { IfOk result (λ comparison. comparison ≡ Some (record { view = view; first = first.now; second = second.now })) }
{
    let first = String::from_str(alloc, first)?;
    let second = String::from_str(alloc, second)?;
    Ok(Some(Comparison {
        view,
        first,
        second,
    }))
}
