//! Targets of members: flashed for an attempt, and the flash committed or reverted, one move of a target at a time.
//!
//! Targets of members. `flash`, `commit` and `revert` end as the machine's entries of their orders say, each refusal
//! included (`carried`), and a refusal that is no stop changes nothing (`unchanged`). **What the target shows**: after
//! `flash` each track of it reads as the secondary's, where what the target held unchanged was the same
//! (`shows_source`), and what it showed is kept aside (`keeps_aside`); `commit` changes nothing of what it shows
//! (`keeps_view`); after `revert` it shows again what was kept aside (`shows_aside`). That no track of what is kept
//! aside is blank is kept by each call, also where it stops (`aside`). Each touches no other volume (`others`), and
//! counts a fault exactly where the server stopped (`faults`).
#![tactic(auto)]

mod checks;
mod committing;
mod fields;
mod flashing;
mod reverting;
mod turning;

pub use committing::commit;
pub use fields::is_flashed;
pub use flashing::flash;
pub use reverting::revert;
pub use turning::turn_target;
