//! Cascaded volumes: the secondary of a Metro Mirror pair that is the primary of a Global Copy pair, so that writes go over three sites.
//!
//! `make_cascade` makes one, and `leave` ends its part as a secondary, each as the machine's entries say (`carried`). A track that comes
//! to a cascaded volume, from its primary or from the host, is sent on first as it was, where it collides there: `feed_track` sends one
//! track to a cascaded secondary, `drain_fed` those that are out of sync at its begin, lowest first (`count`), and `cascade_write` is
//! the synchronous write of `dr_metro` where the partner is cascaded (`mirrors`; `cascade_write_by` of a volume whose fields are at hand). These end as stretches of entries, of which each has what
//! follows the stop of a server in it (`carried`): where one stopped as the track was sent on, the cascaded volume is suspended too. Each
//! call keeps the fields of all volumes lawful and fitting (`rest`, `fit`), and counts a fault exactly where a server stopped (`faults`),
//! also where reads may fail.
#![tactic(auto)]

mod draining;
mod feeding;
mod following;
mod leaving;
mod making;
mod writing;

pub use draining::drain_fed;
pub use feeding::feed_track;
pub use leaving::leave;
pub use making::make_cascade;
pub use writing::{cascade_write, cascade_write_by};
