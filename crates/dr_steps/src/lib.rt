//! Carries out one step of a script on a plant, its configuration and its tables, and answers it in the journal.
//!
//! `carry_task` is the step of the machine, with its answer (`task`), or changes nothing (`same`) for want of memory, which comes only
//! where the step asks for some (`wanted`); it reserves the journal's room before the step begins. `carry_run` is an `@run`: its drains and exchanges one after
//! another as the machine's turns say (`task`), each only where the journal has room; it takes all the room that the
//! journal may still need before it begins, so want of memory never cuts it short (`same`). `carry_image` is an `@image`: it
//! lists the plant's own devices (`lists`) and writes none (`still`). `define_server`,
//! `define_volume`, `set_link`, `issue`, `write`, `apply`, `show`, `stop`, `arm`, `start`, `make_flash`,
//! `remove_flash`, `resync_flash`, `reverse_flash`, `unfreeze_flash`, `copy`, `destage_volume`, `make_path`, `remove_path`, `make_pair`, `remove_pair`,
//! `pause_pair`, `resume_pair`, `fail_over`, `fail_back`, `compare`, `drain`, `expire`, `freeze`, `thaw`, `make_session`, `remove_session`,
//! `make_mirror`, `pause_mirror`, `remove_mirror`, `abort_attempt`, `add_member`, `remove_member`, `exchange`, `send`, `deliver`, `lose`,
//! `recover_session`, `commit_flash`, `revert_flash`, `list_pairs`, `list_flashes`, `list_session` and `show_mirror` are
//! their steps, each with its answer (`step`); `show` gives the bytes that the host writes of the journal say. `fetch_tracks` and `restore_tracks` are the background copy and
//! the restore of several tracks (`carried`), also where reads may fail.
//!
//! An `@run` can be taken apart from outside by the functions that it asks itself: `next_asked`, `is_draining`, `is_copying` and
//! `has_room` say what comes next, `has_committed` and `still_left` how many attempts are still to count.
#![tactic(auto)]

mod answers;
mod background;
mod comparing;
mod define;
mod delivering;
mod exchanges;
mod expiry;
mod flash;
mod forming;
mod forms;
mod freezing;
mod imaging;
mod listing;
mod locate;
mod masters;
mod members;
mod messages;
mod pairs;
mod paths;
mod recovering;
mod returning;
mod sending;
mod sessions;
mod steps;
mod stops;
mod tables;
mod task;

pub use answers::{has_room, refuse_syntax};
pub use forming::{has_committed, is_draining, next_asked, still_left};
pub use pairs::is_copying;
pub use tables::Tables;
pub use task::carry_task;
