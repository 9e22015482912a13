//! What recovery decides over the members of a session.
//!
//! `decide` is the decision over numbers and flags.
#![tactic(auto)]

mod decision;
mod numbers;

pub use decision::decide;
