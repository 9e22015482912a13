ghost use Rattle.std.specs.Prelude.{◌≡◌, IfOk};
ghost use Rattle.clap.specs.Words.{found_of, rows_of, subcommand_rows_of};
ghost use Rattle.dr_words.specs.Line.{has_form, is_option, met_command, named_command, number_in, session_in, takes_value};
ghost use Rattle.dr_words.specs.Words.{command_of};

use crate::line::{NUMBER, SESSION, command_line};
use clap::ArgMatches;
use clap::error::ErrorKind;
use dr_ids::{SessionId, read_number, read_session};
use std::alloc::{AllocError, Global};

/// A command of the program.
#[derive(Clone, Copy)]
pub enum Command {
    /// Runs the script that the source has.
    Run,
    /// Says what recovery of a session makes of the image that the source has.
    Recover { session: SessionId },
    /// Runs the script of the trial with that number.
    Trial { number: u32 },
}

/// The command that the words name, without the program's own name: `run`, `recover SS` with a session in two
/// hexadecimal digits that aren't 00, or `trial N` with a number in one to ten decimal digits; `None` for all other
/// words. Fails only where memory is wanting.
pub fn command_of(alloc: Global, words: &[String]) -> Result<Option<Command>, AllocError>
    ensures { IfOk result (λ command. command ≡ command_of words.now) }
{
    if !has_form(words) {
        return Ok(None);
    }
    match command_line(alloc)?.try_get_matches_from(words) {
        Ok(matches) => Ok(met_command(&matches)),
        Err(error) if error.kind() == ErrorKind::OutOfMemory => Err(AllocError),
        Err(_) => Ok(None),
    }
}

/// Whether there is one word for `run`, or two for `recover` and `trial`, of which none begins with a hyphen: `clap`
/// would read that as an option or as `--`.
fn has_form(words: &[String]) -> bool
    ensures { result ≡ has_form words.now }
{
    match words {
        [name] => name.as_str() == "run",
        [name, value] => takes_value(name.as_str()) && !is_option(value.as_str().as_bytes()),
        _ => false,
    }
}

/// Whether a word is to follow the name.
fn takes_value(name: &str) -> bool
    ensures { result ≡ takes_value name.now }
{
    name == "recover" || name == "trial"
}

/// Whether the word begins with a hyphen.
pub(crate) fn is_option(word: &[u8]) -> bool
    ensures { result ≡ is_option word.now }
{
    match word.first() {
        Some(first) => *first == b'-',
        None => false,
    }
}

/// The command of the subcommand that was met.
fn met_command(matches: &ArgMatches<'_>) -> Option<Command>
    ensures { result ≡ met_command (subcommand_rows_of matches.now) }
{
    let (name, values) = matches.subcommand()?;
    named_command(name, values)
}

/// The command of a subcommand's name and its values.
fn named_command(name: &str, values: &ArgMatches<'_>) -> Option<Command>
    ensures { result ≡ named_command name.now (rows_of (found_of values.now)) }
{
    if name == "run" {
        Some(Command::Run)
    } else if name == "recover" {
        let session = session_in(values)?;
        Some(Command::Recover { session })
    } else if name == "trial" {
        let number = number_in(values)?;
        Some(Command::Trial { number })
    } else {
        None
    }
}

/// The session that `recover` was given.
fn session_in(values: &ArgMatches<'_>) -> Option<SessionId>
    ensures { result ≡ session_in (rows_of (found_of values.now)) }
{
    read_session(values.get_str(SESSION)?.as_bytes())
}

/// The number that `trial` was given.
fn number_in(values: &ArgMatches<'_>) -> Option<u32>
    ensures { result ≡ number_in (rows_of (found_of values.now)) }
{
    read_number(values.get_str(NUMBER)?.as_bytes(), u32::MAX)
}
