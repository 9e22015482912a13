//! Global Mirror: what a server does with the members of a session as the session's master orders it, member by member.
//!
//! Orders of a session's master. `seal` seals a secondary whose primary has nothing left to send, and answers false
//! exactly where the seal has to wait; where it is done, each track of the secondary contains what the host writes make
//! that its primary held at the one cut of that number (`holds_cut`), and however it ends, what secondaries hold of
//! cuts stays so (`cuts`). Both ask that it was so before, which every run shows (`seals_find_their_cut` of
//! `dr_laws_recovery`). `settle` reports what the targets of a server's members show that count in the session, in
//! order (`shown`), and changes nothing. `carry_out` carries out an order of any kind over the members of a server, in
//! order, and begins the session's attempt exactly where its first hold was done (`carried`); `asked_order` is the order
//! that a master has for a server (`order`), and `take_reply` what it makes of the reply; `decide_over` is the
//! decision over what a session's members show; `restore_refusal` and `leaving` are what the sessions say of a restore
//! of a member's target: why it can't be, and who leaves. `exchange` is an order behind its refusals in order, and the
//! master takes the reply, and goes on after the last report. In a sound world an exchange leaves the target of a member
//! as it is whose secondary isn't its primary's, as after a takeover, and so does an order that is delivered (`leaves`).
#![tactic(auto)]

mod exchanging;
mod holding;
mod looks;
mod orders;
mod restores;
mod sealing;
mod settling;
mod steps;

pub use exchanging::{asked_order, exchange, take_reply};
pub use looks::apart_refusal;
pub use orders::carry_out;
pub use restores::{decide_over, leaving, member_with, restore_refusal, secondary_refusal};
pub use sealing::seal;
pub use settling::settle;
