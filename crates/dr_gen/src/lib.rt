//! The script of a trial: a long run of writes, drains, exchanges, stops and recoveries that a number
//! decides.
#![tactic(auto)]

mod print;
mod rounds;

pub use print::script;
