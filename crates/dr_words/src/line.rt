ghost use Rattle.std.specs.Prelude.{◌≡◌, IfOk, codes};
ghost use Rattle.clap.specs.Words.{app_of, with_subcommand};
ghost use Rattle.dr_words.specs.Line.{bare_program, command_line, valued};

use clap::{Arg, Command};
use std::alloc::{AllocError, Global};

/// The id of the session in the matches of `recover`.
pub const SESSION: &str = "session";

/// The id of the number in the matches of `trial`.
pub const NUMBER: &str = "number";

/// The command line: one of three subcommands, and neither help nor options.
pub fn command_line<'a>(alloc: Global) -> Result<Command<'a>, AllocError>
    ensures { IfOk result (λ line. app_of line ≡ command_line) }
{
    let line = bare_program(alloc).subcommand(Command::new(alloc, "run"))?;
    let line = with_valued(alloc, line, "recover", SESSION)?;
    with_valued(alloc, line, "trial", NUMBER)
}

/// The program without its name, help and options.
fn bare_program<'a>(alloc: Global) -> Command<'a>
    ensures { app_of result ≡ bare_program }
{
    Command::new(alloc, "drsim")
        .no_binary_name(true)
        .disable_help_flag(true)
        .disable_help_subcommand(true)
        .subcommand_required(true)
}

/// The line with a subcommand of that name, whose one value has to be there.
fn with_valued<'a>(
    alloc: Global,
    line: Command<'a>,
    name: &'a str,
    id: &'a str,
) -> Result<Command<'a>, AllocError>
    ensures { IfOk result (λ longer. app_of longer ≡ with_subcommand (app_of line.entry) (valued name.entry.now id.entry.now).top) }
{
    let value = Arg::new(alloc, id).required(true);
    let command = Command::new(alloc, name).arg(value)?;
    line.subcommand(command)
}
