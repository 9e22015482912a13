//! Identifiers, the answers of a step and the small types that every layer shares, with the readers
//! of the words that name them.
//!
//! The readers of words give a value exactly for the words of their form: `read_volume`, `read_lss`, `read_session`,
//! `read_number`. `hex_value` and `upper_hex` are the digit tables. `be16` and `be32` are the numbers that stand in
//! bytes. `Text::append` adds its piece (`ok`) or leaves the text (`err`), and `Text::bytes` gives all of it.
//! `track_block`, `side_block` and `blocks_of` say how a volume lies on its device: 13 blocks, its tracks, eight side blocks.
#![tactic(auto)]

mod big_endian;
mod names;
mod refusal;
mod sizes;
mod text_buffer;
mod words;

pub use big_endian::{be16, be32};
pub use names::{Attempt, Lss, Member, ServerId, SessionId, VolumeId, WriteId};
pub use refusal::{Decision, Fault, Kind, PairSeen, PhaseName, Refusal, RelSeen, Which};
pub use sizes::{
    FIRST_TRACK, FIXED_BLOCKS, MAX_TRACKS, MOST_EVENTS, MOST_SERVERS, MOST_VOLUMES, SIDE_BLOCKS,
    VOLUMES_OF_LSS, blocks_of, side_block, track_block,
};
pub use text_buffer::Text;
pub use words::{hex_value, read_lss, read_number, read_session, read_volume, upper_hex};
