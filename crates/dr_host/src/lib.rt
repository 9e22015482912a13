//! The host's writes that are issued and not acknowledged yet, in order of issue.
//!
//! `Host` is the list of pending writes in order of issue. `issue` refuses exactly where 64 are pending (`refused`),
//! gives the next number (`number`), and adds exactly this write (`added`) or nothing (`same`). `pending` is the write
//! of a number, `land` marks that one alone, `finish` takes out that one alone, and `landed_on` is the first that
//! landed on a volume of a server. As what lies beside devices and journal (`Beside`), it hears that a pending write is
//! pending no more, or has landed.
#![tactic(auto)]

mod hearing;
mod host;
mod pending;

pub use host::Host;
pub use pending::Pending;
