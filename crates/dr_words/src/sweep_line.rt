ghost use Rattle.std.specs.Prelude.{◌≡◌, IfOk, codes, false};
ghost use Rattle.clap.specs.Words.{app_of, new_app, rule_of, with_rule, with_subcommand};
ghost use Rattle.dr_words.specs.SweepLine.{bare_sweep, files_rule, point_rule, sweep_line};

use clap::{Arg, Command};
use std::alloc::{AllocError, Global};

/// The id of the words of a point in the matches of `script`.
pub const POINT: &str = "point";

/// The id of the names of files in the matches of `compare`.
pub const FILES: &str = "files";

/// The command line of the program of sweeps: no subcommand or one of five, and neither help nor options.
pub fn sweep_line<'a>(alloc: Global) -> Result<Command<'a>, AllocError>
    ensures { IfOk result (λ line. app_of line ≡ sweep_line) }
{
    let line = bare_sweep(alloc).subcommand(Command::new(alloc, "rows"))?;
    let line = line.subcommand(Command::new(alloc, "picture"))?;
    let line = line.subcommand(Command::new(alloc, "json"))?;
    let line = with_script(alloc, line)?;
    with_compare(alloc, line)
}

/// The program without its name, help and options.
fn bare_sweep<'a>(alloc: Global) -> Command<'a>
    ensures { app_of result ≡ bare_sweep }
{
    Command::new(alloc, "sweep")
        .no_binary_name(true)
        .disable_help_flag(true)
        .disable_help_subcommand(true)
}

/// The line with the subcommand `script`.
fn with_script<'a>(alloc: Global, line: Command<'a>) -> Result<Command<'a>, AllocError>
    ensures { IfOk result (λ longer. app_of longer ≡ with_subcommand (app_of line.entry) (with_rule (new_app (codes "script")) point_rule).top) }
{
    let script = Command::new(alloc, "script").arg(point(alloc))?;
    line.subcommand(script)
}

/// The line with the subcommand `compare`.
fn with_compare<'a>(alloc: Global, line: Command<'a>) -> Result<Command<'a>, AllocError>
    ensures { IfOk result (λ longer. app_of longer ≡ with_subcommand (app_of line.entry) (with_rule (new_app (codes "compare")) files_rule).top) }
{
    let compare = Command::new(alloc, "compare").arg(files(alloc))?;
    line.subcommand(compare)
}

/// The words of a point, which have to be there.
fn point<'a>(alloc: Global) -> Arg<'a>
    ensures { (rule_of result ≡ point_rule) × (result.global ≡ false) }
{
    Arg::new(alloc, POINT).required(true).num_args(2..=5)
}

/// The names of two files, and maybe a word before them.
fn files<'a>(alloc: Global) -> Arg<'a>
    ensures { (rule_of result ≡ files_rule) × (result.global ≡ false) }
{
    Arg::new(alloc, FILES).required(true).num_args(2..=3)
}
