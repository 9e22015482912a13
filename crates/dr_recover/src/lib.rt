//! Recovery of a session: its secondaries are taken over, and then its targets are committed or reverted as was decided, all at
//! once or one by hand.
//!
//! Recovery of a session. `recover` takes over each secondary, in order of members, and only then commits or reverts
//! each target that is revertible from the attempt that was decided on; then it tells the journal the group. It ends as
//! the machine's plan says, its refusal included (`carried`, `refused`, `ends`), says what was decided at its begin and
//! the group at its end (`decision`, `group`), and a refusal that is no stop changes nothing (`unchanged`). In a sound
//! world, as each is that the program comes to: however it ends, another recovery then makes the same of each session,
//! the same volumes with the same group and images (`keeps`); and where it ends well it has done it, and answers the
//! group and the decision of that recovery (`recovers`). `act` commits or reverts the one revertible target of a
//! volume, only where that is decided now and all secondaries are taken over (`carried`).
#![tactic(auto)]

mod acting;
mod checks;
mod looks;
mod recovery;
mod settling;
mod steps;
mod taking;

pub use acting::act;
pub use recovery::{Recovered, recover};
