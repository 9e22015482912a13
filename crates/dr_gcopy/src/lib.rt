//! Pairs of volumes on two servers: made and ended, paused and resumed, and tracks sent from a primary to its secondary, one
//! move of a volume at a time.
//!
//! Pairs on a plant. `make_pair`, `make_as` (which may make a cascaded volume), `remove_pair`, `pause` and `resume` end as the machine's entries of their commands say,
//! each refusal included (`carried`), and a refusal that is no stop changes nothing (`unchanged`). `difference` is the
//! first track in which two volumes differ, found by looks after one read of each (`found`). `suspend`, `store`, `strike` and
//! `take_over` are one move each, and `receive_track` is what a secondary does for a track that comes: its targets keep
//! theirs first, then it stores (`carried`). `send_track` sends one track, and what follows where the secondary can't be
//! reached or its server stops: the primary is suspended, and the call names the first server that stopped (`carried`,
//! `struck`, `stored`). `drain` sends the tracks that are out of sync at its begin, lowest first, as many as asked for
//! (`carried`), and says how many (`count`). `send_old` sends first what a track was, where what comes to its volume collides with it
//! (`ran`): it leaves each volume its parts (`parts`), and makes none a target (`lone`). `suspend_running` is what follows a stop. `reach_refusal` is why a volume can't be reached (`refusal`),
//! `running_refusal` why nothing can be done on one now (`checked`); `is_secondary_of` says how a volume
//! stands by its fields, `is_primary_by` and `is_secondary_by` by its head, and `next_state` in which state a pair goes on.
//! Each call keeps the fields of all volumes lawful and fitting (`rest`, `fit`), touches no other volume but the targets of
//! a secondary (`others`; `drain` says it by its entries alone), and counts a fault exactly where a server stopped
//! (`faults`), also where reads may fail. That a pair stays equal outside what its primary records is the machine's law of
//! these entries (`dr_laws_sound`), and of the devices at every exit a clause of the top call; the calls of this crate
//! don't say it once more.
#![tactic(auto)]

mod both;
mod checks;
mod colliding;
mod compare;
mod draining;
mod ending;
mod following;
mod kinds;
mod making;
mod parts;
mod passing;
mod pausing;
mod reach;
mod receiving;
mod sending;
mod storing;
mod suspending;
mod taking;

pub use checks::running_refusal;
pub use colliding::send_old;
pub use compare::difference;
pub use dr_moves::collides;
pub use draining::{drain, is_enough};
pub use ending::remove_pair;
pub use following::{follow_stop, suspend_running};
pub use kinds::{CopyKind, part_of};
pub use making::{make_as, make_pair};
pub use parts::{is_primary_by, is_secondary_by, is_secondary_of, next_state};
pub use passing::pass_on;
pub use pausing::{pause, resume};
pub use reach::reach_refusal;
pub use receiving::{flashed_refusal, receive_track};
pub use sending::{refuse, send_refusal, send_track};
pub use storing::{store, strike};
pub use suspending::suspend;
pub use taking::take_over;
