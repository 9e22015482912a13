//! What the listings of a run tell of its volumes, sessions and masters, and an image of its devices.
//!
//! Each call looks at the plant whether or not servers are on, takes no memory, and adds to the journal exactly what the machine's
//! plan of the listing tells (`told`): `pairs` the parts of a volume in pairs, `flashes` the relationships that a volume is in,
//! `sessions` the members of a logical subsystem, `mirrors` the masters of its sessions, `image` all blocks that aren't all zero.
//! A call needs room in the journal for the most lines that it may have, and takes no more (`left`). An image lists each volume as
//! its device has it (`lists`).
#![tactic(auto)]

mod devices;
mod lines;
mod masters;
mod members;
mod parts;
mod relations;

pub use devices::{IMAGE_LINES, image};
pub use masters::mirrors;
pub use members::sessions;
pub use parts::pairs;
pub use relations::flashes;
