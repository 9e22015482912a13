//! The hold of a flash set: targets of several sources that are one cut.
//!
//! `freeze_flash` makes a target as `establish` does, and before that holds host writes on its source; `unfreeze` takes the holds
//! of a logical subsystem's volumes off. Between both no host write lands on any of the sources, so all targets that were
//! made show what the sources held together. Each call ends as the machine's entries say, each refusal included (`carried`), and
//! a refusal that is no stop changes nothing (`unchanged`). A target is made only where its source has a flash hold (`first`,
//! `held`), and shows what that shows (`shows`); a stop between both leaves the hold, and no relationship. After `unfreeze` no volume of the logical subsystem
//! has a flash hold (`released`), and no other volume has changed (`others`).
#![tactic(auto)]

mod freeing;
mod holding;
mod passing;

pub use freeing::unfreeze;
pub use holding::freeze_flash;
