//! Which host writes the tracks held at a place of a journal, which of them are lost, and whether a write that is held depends on a lost one.
//!
//! A `Holdings` stands for the histories of the events that it heard (`StandsFor`), whatever they are: `hear` hears one more, `hear_between` those
//! of a journal from a place to a place (`heard`; after a failure, up to a place between: `failed`), and `after` those before a place. The list
//! of a track is the number of a node in an arena, that is its last write and the node of the list before it; so what copies volumes and
//! tracks copies numbers. `list` gives a list as it is.
//!
//! `lost` gives what the second volumes of pairs held at the stop and the first ones don't hold at the end, each write once, as a list in order
//! (`writes`) and by its members (`members`), and `held` what volumes hold; `lost_at` speaks of one track. `first_broken` finds the first write
//! by issue that is held and depends on a lost one, with the lost one that was acknowledged first (`found`), or says that none does (`none`).
//! `set_of` gives the set of some writes. What fails, fails for want of memory.
#![tactic(auto)]

mod broken;
mod holdings;
mod journal;
mod lost;
mod nodes;
mod places;
mod rows;

pub use broken::{Broken, first_broken};
pub use holdings::Holdings;
pub use lost::{Pair, set_of};
