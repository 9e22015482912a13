//! The top call: reads a script from a source, carries it out on a plant and prints the answers to a sink; or reads an image, and
//! prints what recovery makes of it.
//!
//! `drsim` is the top call; `docs/CLAIMS.md` says what its clauses promise. Below it, in private modules: `run_lines`
//! takes the lines and `run_line` carries out one and prints its answers (`ran`). `carry_line` carries out its steps in
//! order, until one finds the journal full or memory wanting (`goes`). `put_all` puts a whole piece or a front of it
//! (`whole`, `part`). `recover` reads an image piece by piece and puts its report. `OpenRun` is a run that goes on:
//! `carry_out` carries out one text after another, and tells nobody; between two of them `phase_in`, `member_at` and `counts` look
//! at its sessions. `try_script` is a run of one text; trials and sweeps are made of it. `read_text` takes a whole text within
//! the limits of a script.
#![tactic(auto)]

mod carry;
mod offline;
mod open_run;
mod put;
mod report;
mod run;
mod status;
mod summary;
mod top;
mod trial;
mod tried;
mod whole_text;

pub use offline::NotRead;
pub use open_run::OpenRun;
pub use put::put_all;
pub use status::Status;
pub use top::drsim;
pub use tried::try_script;
pub use whole_text::read_text;
