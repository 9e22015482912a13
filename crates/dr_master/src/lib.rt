//! The master of a session: the phases of an attempt as a pure machine.
//!
//! A `Master` is the machine of phases: `new`, `phase`, `number`; `next_order` gives an order exactly where the server
//! is owed one; `first_asked` is the first that is owed one, and in Idle the first of all (`first`); `expects` says
//! which replies there can be, and `reply` goes on after the last of them; `is_answered`; `begin` and `abort` refuse
//! exactly where the phases say (`refused`) and change nothing then (`same`); `lose`, `can_be_lost`, `settle_start`,
//! `raise`, `set_servers`. `ServerSet` is a set of servers: `contains`, `with`, `without`, `is_empty`.
#![tactic(auto)]

mod master;
mod orders;
mod phases;
mod reports;
mod servers;

pub use master::Master;
pub use orders::{Order, OrderKind};
pub use reports::{MOST_REPORTED, Reply, Report};
pub use servers::ServerSet;
