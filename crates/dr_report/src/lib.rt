//! What recovery makes of a plant image, with no server running.
//!
//! `offline` reads the record of each volume of an image once, and says what recovery of a session makes of them (`found`): the text
//! to be printed, which says how many volumes count, what is decided over them, their group and what those show that remain; two
//! numbers that contradict each other, exactly where what is decided is impossible (`contradiction`); or no members, exactly where no
//! volume counts (`no_members`). Nothing is carried out, and whether servers were on doesn't matter. The word `recover` of the program
//! prints this text.
#![tactic(auto)]

mod decided;
mod device;
mod found;
mod printed;
mod tracks;

pub use found::{Found, offline};
