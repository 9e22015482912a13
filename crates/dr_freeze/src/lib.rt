//! Freeze and thaw of the pairs between two logical subsystems.
//!
//! `freeze` suspends each primary between two logical subsystems, makes it long busy, and then removes the path; `thaw`
//! takes long busy off. Each ends as the machine's entries say, each refusal included (`carried`), and a refusal that
//! is no stop changes nothing (`unchanged`). After a freeze each such primary is Suspended and long busy and the path
//! is gone (`frozen`), after a stop in one the path is as it was (`same`), and after a thaw none of them is long busy
//! (`thawed`). `thaw_refusal` is the check of a thaw alone.
#![tactic(auto)]

mod between;
mod changes;
mod checks;
mod freezing;
mod passing;

pub use checks::thaw_refusal;
pub use freezing::{freeze, thaw};
