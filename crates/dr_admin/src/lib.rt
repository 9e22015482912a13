//! Members of sessions, added and removed: what is asked of their volumes, the moves of these, and the list of members. And
//! what goes over all volumes of a server: its start, and the end of their holds.
//!
//! Members of sessions, and what goes over all volumes of a server. `enrol` adds a member: its refusals in order, its
//! moves, and then the table, for which memory was reserved before; `expel` takes one out. Each ends as the machine's
//! entries say (`carried`), and the table changes only where they ended well. `start` turns a server on, lets its
//! volumes write their staged tracks to their places and go on, and acknowledges the write that had landed in a stop;
//! `lift` ends all holds of a server's volumes, and is refused where the server is off. Each is the machine's plan of
//! its step, carried out and answered (`plan`), also where reads may fail. After a start that went well the host has
//! the writes that it had, with their bytes, but for the one that was acknowledged (`acked`, `host`), and the journal
//! was told of the start and of that write alone (`told`); after one that a stop ended the host has all of them
//! (`same`). A start of a server that is on, and an end of holds that is refused, change nothing (`unchanged`).
#![tactic(auto)]

mod checks;
mod enrolling;
mod expelling;
mod lifting;
mod members;
mod numbers;
mod owners;
mod pairing;
mod raising;
mod starting;
mod targets;

pub use enrolling::enrol;
pub use expelling::expel;
pub use lifting::lift;
pub use starting::start;
