//! Coordination of volumes: what an attempt makes of them, and how a volume goes on as its server starts, one move of a
//! volume at a time.
//!
//! What coordination makes of one volume. `hold` holds a primary for an attempt, which begins with the first such move, also
//! where the server stops in it, and what lies beside devices and journal hears of that; `release` lets it go, `finish` ends its attempt, and `void` what it
//! records; `leave` is the move of a member that goes, and `restart` lets a volume go on as its server starts. Each is the
//! machine's entries, its refusals in order (`carried`, `advances`, `halts`), touches no other volume (`others`), and
//! counts a fault exactly where the server stopped (`faults`).
#![tactic(auto)]

mod checks;
mod fields;
mod finishing;
mod holding;
mod leaving;
mod restarting;

pub use checks::void_refusal;
pub use finishing::{finish, void};
pub use holding::{hold, release};
pub use leaving::leave;
pub use restarting::restart;
