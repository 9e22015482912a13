//! Incremental FlashCopy: a target is made a copy of its source anew, or is restored onto it.
//!
//! Incremental FlashCopy. `resync` ends as the machine's entries say (`carried`), and after it each track of the target
//! reads as that of its source, where what it held unchanged was the same (`same`). `reverse_start` begins a restore
//! (`carried`, `moved`); of a member's target it asks what the sessions say of that, and tells who leaves.
//! `reverse_step` gives back one track, the lowest that the target holds: the other targets keep the source's first,
//! then the source has the target's bytes (`back`), and the target gives it up (`moved`); it answers false exactly
//! where there is none left (`found`, `none`). `reverse_finish` is its last move alone. **What a restore brings back**:
//! from its begin on the target shows what it showed, and when the relationship has ended the source's tracks are that
//! and the target reads zeros (`restores`, of `reverse_start` and of each step).
#![tactic(auto)]

mod checks;
mod moves;
mod others;
mod renewal;
mod restore;

pub use renewal::resync;
pub use restore::{reverse_finish, reverse_start, reverse_step};
