//! Sweeps over a plan: runs each of its points, and prints what these runs came to, by their journals.
//!
//! `sweep` is the call that the program makes for one plan, and `compare` the one for two (`comparing.rt`); `usage` puts the usage line. Before any point the calm run is carried out: the
//! set-up and all tried steps, without a disaster (`calm.rt`); and each tried `@run` is taken apart into its drains and exchanges (`apart.rt`, `turns.rt`).
//! `parts_of` lists the parts of a sweep in order: the gaps between tried steps, and
//! the servers whose device writes are cut short in a step. The script of a point is carried out in pieces on a plant of its own (`run.rt`,
//! `point.rt`), so that phases and members are read between them; its row is read off the journal (`row.rt`, `losses.rt`, `acks.rt`).
#![tactic(auto)]

mod acks;
mod answers;
mod apart;
mod call;
mod calm;
mod comparing;
mod counts;
mod ending;
mod fault;
mod find;
mod losses;
mod parts;
mod point;
mod printing;
mod reach;
mod row;
mod rows;
mod run;
mod turns;
mod walk;

pub use call::{sweep, usage};
pub use comparing::compare;
pub use ending::Ending;
pub use fault::PointFault;
pub use parts::{Part, parts_of};
