//! The sessions: their logical subsystems, members, last numbers and masters, as a table.
//!
//! `Sessions` is the table of sessions. Each call refuses exactly where the rules say (`refused`), makes exactly its
//! change, and changes nothing else: `join_lss`, `leave_lss`, `add_member`, `remove_member`, `raise_last`,
//! `make_master`, `drop_master`, `set_paused`, `lose_server`, `begin`, `reply`, `abort`, `settle_start`. After
//! `reserve` the next `add_member` can't fail for want of memory (`room`). `master` says that a master has the servers
//! of its session's members and its last number (`servers`, `number`). The look-ups `member_at`, `session_of`, `last`,
//! `master_server`, `is_paused`, `session_at`, `has_lss`, `is_defined`, `busy`, `session_with_place`, `expects`,
//! `can_settle`, `can_lose_master` read the table.
#![tactic(auto)]

mod members;
mod places;
mod session;
mod table;

pub use table::Sessions;
