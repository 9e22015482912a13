ghost use Rattle.std.specs.Prelude.{◌≡◌, ◌<◌, IfOk, IfSome, length, map, nat_eq};
ghost use Rattle.std.specs.List.{position};
ghost use Rattle.clap.specs.Words.{found_of, rows_of, subcommand_rows_of};
ghost use Rattle.dr_words.specs.Sweep.{after_dot, before_dot, counted, cut_said, gap_said, has_option, ordinal, plan_line_said, point_said, sweep_command_of, torn_said};
ghost use Rattle.dr_words.specs.SweepLine.{has_form, is_point, is_view, met_command, named_command, point_in};

use crate::sweep_line::{POINT, sweep_line};
use crate::words::is_option;
use clap::ArgMatches;
use clap::error::ErrorKind;
use dr_ids::{Text, read_number};
use std::alloc::{AllocError, Global};

/// What a stop leaves in the block whose write it cuts short.
#[derive(Clone, Copy)]
pub enum TornBytes {
    /// What was there: `none`.
    Unchanged,
    /// Bytes of 00.
    Zeros,
    /// Bytes of 01.
    Ones,
}

/// A line of a plan, or a part of one.
#[derive(Clone, Copy)]
pub struct PlanLine {
    /// The number of the line in the plan, counted from 1.
    pub line: u32,
    /// The place among the steps of the line, counted from 1; 0 where none was named.
    pub part: u32,
}

/// A command of the program of sweeps. Disasters are counted from 1.
#[derive(Drop)]
pub enum SweepCommand {
    /// Says what was found.
    Report,
    /// Prints a row for each point.
    Rows,
    /// Draws what is lost at each point.
    Picture,
    /// Prints the plan, the calm run, the table and the rows as one JSON object.
    Json,
    /// Prints the script of a point in a tried step: after that many device writes in it one of that server is cut short.
    CutScript {
        disaster: u32,
        line: PlanLine,
        server: Text,
        write: u32,
        torn: TornBytes,
    },
    /// Prints the script of a point after a tried step, or after the line from which on steps are tried.
    GapScript {
        disaster: u32,
        line: PlanLine,
    },
}

/// The command that the words name, without the program's own name: no words, `rows`, `picture`, `json`, or `script` with
/// the words of a point; `None` for all other words. Fails only where memory is wanting.
pub fn sweep_command_of(alloc: Global, words: &[String]) -> Result<Option<SweepCommand>, AllocError>
    ensures { IfOk result (λ command. command ≡ sweep_command_of words.now) }
{
    if !has_form(words) {
        return Ok(None);
    }
    match sweep_line(alloc)?.try_get_matches_from(words) {
        Ok(matches) => met_command(alloc, &matches),
        Err(error) if error.kind() == ErrorKind::OutOfMemory => Err(AllocError),
        Err(_) => Ok(None),
    }
}

/// Whether there is no word, the one of a view, or `script` with the words of a point.
fn has_form(words: &[String]) -> bool
    ensures { result ≡ has_form words.now }
{
    match words {
        [] => true,
        [name] => is_view(name.as_str()),
        [name, rest @ ..] => name.as_str() == "script" && is_point(rest),
    }
}

/// Whether the word names what is printed on all points.
fn is_view(name: &str) -> bool
    ensures { result ≡ is_view name.now }
{
    name == "rows" || name == "picture" || name == "json"
}

/// Whether these are two to five words of which none begins with a hyphen: `clap` would read that as an option or as `--`.
fn is_point(words: &[String]) -> bool
    ensures { result ≡ is_point words.now }
{
    2 <= words.len() && words.len() <= 5 && !has_option(words)
}

/// Whether a word begins with a hyphen.
pub(crate) fn has_option(words: &[String]) -> bool
    ensures { result ≡ has_option words.now }
{
    words.iter().any(|word| is_option(word.as_str().as_bytes()))
}

/// The command of the subcommand that was met; the report where there was none.
fn met_command(alloc: Global, matches: &ArgMatches<'_>) -> Result<Option<SweepCommand>, AllocError>
    ensures { IfOk result (λ command. command ≡ met_command (subcommand_rows_of matches.now)) }
{
    match matches.subcommand() {
        Some((name, values)) => named_command(alloc, name, values),
        None => Ok(Some(SweepCommand::Report)),
    }
}

/// The command of a subcommand's name and its values.
fn named_command(
    alloc: Global,
    name: &str,
    values: &ArgMatches<'_>,
) -> Result<Option<SweepCommand>, AllocError>
    ensures { IfOk result (λ command. command ≡ named_command name.now (rows_of (found_of values.now))) }
{
    if name == "rows" {
        Ok(Some(SweepCommand::Rows))
    } else if name == "picture" {
        Ok(Some(SweepCommand::Picture))
    } else if name == "json" {
        Ok(Some(SweepCommand::Json))
    } else {
        point_in(alloc, values)
    }
}

/// The command of the words that `script` was given.
fn point_in(alloc: Global, values: &ArgMatches<'_>) -> Result<Option<SweepCommand>, AllocError>
    ensures { IfOk result (λ command. command ≡ point_in (rows_of (found_of values.now))) }
{
    match values.get_strs(POINT) {
        Some(words) => point_said(alloc, words),
        None => Ok(None),
    }
}

/// What the words of a point say: `LINE[.PART] gap` or `LINE[.PART] SERVER WRITE TORN`, and after them `DISASTER`, or the
/// first one.
fn point_said(alloc: Global, words: &[&str]) -> Result<Option<SweepCommand>, AllocError>
    ensures { IfOk result (λ command. command ≡ point_said (map (λ word. word.now) words.now)) }
{
    match words {
        [line, gap] => Ok(gap_said(line, gap, "1")),
        [line, gap, disaster] => Ok(gap_said(line, gap, disaster)),
        [line, server, write, torn] => cut_said(alloc, line, server, write, torn, "1"),
        [line, server, write, torn, disaster] => {
            cut_said(alloc, line, server, write, torn, disaster)
        }
        _ => Ok(None),
    }
}

/// What the words of a point after a step say.
fn gap_said(line: &str, gap: &str, disaster: &str) -> Option<SweepCommand>
    ensures { result ≡ gap_said line.now gap.now disaster.now }
{
    if gap != "gap" {
        return None;
    }
    let line = plan_line_said(line.as_bytes())?;
    let disaster = counted(disaster)?;
    Some(SweepCommand::GapScript { disaster, line })
}

/// What the words of a point in a step say.
fn cut_said(
    alloc: Global,
    line: &str,
    server: &str,
    write: &str,
    torn: &str,
    disaster: &str,
) -> Result<Option<SweepCommand>, AllocError>
    ensures { IfOk result (λ command. command ≡ cut_said line.now server.now write.now torn.now disaster.now) }
{
    let Some(line) = plan_line_said(line.as_bytes()) else {
        return Ok(None);
    };
    let Some(write) = counted(write) else {
        return Ok(None);
    };
    let Some(torn) = torn_said(torn) else {
        return Ok(None);
    };
    let Some(disaster) = counted(disaster) else {
        return Ok(None);
    };
    let mut name = Text::new(alloc);
    name.append(server.as_bytes())?;
    Ok(Some(SweepCommand::CutScript {
        disaster,
        line,
        server: name,
        write,
        torn,
    }))
}

/// The number of a word in one to ten decimal digits.
fn counted(word: &str) -> Option<u32>
    ensures { result ≡ counted word.now }
{
    read_number(word.as_bytes(), u32::MAX)
}

/// The number from 1 on of a word in one to ten decimal digits.
fn ordinal(word: &[u8]) -> Option<u32>
    ensures { result ≡ ordinal word.now }
{
    match read_number(word, u32::MAX) {
        Some(0) | None => None,
        Some(n) => Some(n),
    }
}

/// The place of the first dot of a word.
fn find_dot(word: &[u8]) -> Option<usize>
    ensures value { result ≡ position (λ b. nat_eq b 46) word.now }
    ensures within { IfSome result (λ dot. dot < length word.now) }
{
    word.iter().position(|b| *b == b'.')
}

/// The bytes of a word before its dot.
fn before_dot(word: &[u8], dot: usize) -> &[u8]
    requires { dot < length word.now }
    ensures { result.now ≡ before_dot dot word.now }
{
    &word[..dot]
}

/// The bytes of a word after its dot.
fn after_dot(word: &[u8], dot: usize) -> &[u8]
    requires { dot < length word.now }
    ensures { result.now ≡ after_dot dot word.now }
{
    &word[dot + 1..]
}

/// The line of a plan that a word names, or the part of it after a dot.
fn plan_line_said(word: &[u8]) -> Option<PlanLine>
    ensures { result ≡ plan_line_said word.now }
{
    match find_dot(word) {
        None => {
            let line = ordinal(word)?;
            Some(PlanLine { line, part: 0 })
        }
        Some(dot) => {
            let line = ordinal(before_dot(word, dot))?;
            let part = ordinal(after_dot(word, dot))?;
            Some(PlanLine { line, part })
        }
    }
}

/// The torn bytes of a word.
fn torn_said(word: &str) -> Option<TornBytes>
    ensures { result ≡ torn_said word.now }
{
    if word == "none" {
        Some(TornBytes::Unchanged)
    } else if word == "00" {
        Some(TornBytes::Zeros)
    } else if word == "01" {
        Some(TornBytes::Ones)
    } else {
        None
    }
}
