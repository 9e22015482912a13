//! The words that the programs are given, as the command that they name.
//!
//! `command_of` reads the words of `drsim` by `clap`, without help, options and `--`; `sweep_command_of` does so with those of
//! the program of sweeps on one plan, and `comparison_of` with those on two. The words of a point are one argument with several values, and
//! `point_said` reads these.
#![tactic(auto)]

mod compare;
mod line;
mod sweep;
mod sweep_line;
mod words;

pub use compare::{ComparedView, Comparison, comparison_of};
pub use sweep::{PlanLine, SweepCommand, TornBytes, sweep_command_of};
pub use words::{Command, command_of};
