//! What a run of a scenario is worth: the names of a folder's scenarios, where printed and stored text differ, and the lines
//! that say so.
//!
//! `judge` says that a scenario agrees exactly where output and status are as stored; else it gives the first line that
//! differs or, where the output is as stored, the status (`IsVerdict`). `differing_line` gives none exactly where both
//! texts are the same (`none`, `line`). `script_names` gives the name of every script among a folder's files, and
//! `is_stray` tells a file without its script; `status_of` is the number in a text, and `words_of` are the lines of one, or
//! `run` where there is none. `Tally::of` counts (`agree`, `all`), and `Tally::code` is 0 exactly where nothing differs.
//! `difference` and `counts` are the bytes of the printed lines. `agreed_group` is the group on which the recoveries of a script
//! with a stop agree.
#![tactic(auto)]

mod names;
mod recoveries;
mod report;
mod texts;
mod verdict;

pub use names::{OUTPUT, SCRIPT, STATUS, WORDS, is_stray, script_names, status_of, words_of};
pub use recoveries::{Recovery, agreed_group};
pub use report::{counts, difference};
pub use texts::differing_line;
pub use verdict::{Outcome, Tally, Verdict, judge};
