//! Moves as values, and plans that are carried out.
//!
//! `Move` has every kind of move; its rows of the machine's catalogue say its target, the next fields, and what it tells. `make`
//! makes any of them: it reads the volume's gate and decodes its record once, changes the fields where they stand, writes the record with
//! the track that the move carries, and tells the journal. Where the server stops, `Stop` says whether the move counts as
//! done. `make_opened` is the same for a caller who has opened the volume, and `make_by` for one who has its fields.
//! `make_move` is `make` as an entry of a plan, and `make_move_by` is `make_by` as one. `Asks` (specs) is what a kind of move
//! asks of the plant, and `Kept` what stays over each of these calls. `place_staged` puts a staged track in its place as a
//! server starts, and `destage_told` does so and leaves none staged.
//!
//! What a run knows besides devices and journal, the host's pending writes, the sessions and the paths, is `Beside`: it hears
//! `News`, and what it shows changes as the machine's does. `open_attempt` is the first hold of an attempt, and `perform` does an act
//! that takes no device write (`Act`).
//!
//! `act_beside` does whatever an entry comes to (`Next`), and `carry_beside` does so with the entries of a plan that are left
//! (`Entries`), in order, until one ends it or a server stops; `act` and `carry` where `Nothing` lies beside. `follow` carries
//! out what follows where a server stopped (`Behind`).
#![tactic(auto)]

mod acts;
mod at_hand;
mod attempt_fields;
mod beside;
mod carrying;
mod flash_fields;
mod following;
mod hearing;
mod moves;
mod options;
mod pair_fields;
mod pairs;
mod performing;
mod place;
mod placing;
mod reads;
mod sets;
mod told;

pub use acts::{Stop, make, make_move, make_ready};
pub use at_hand::{make_by, make_move_by, make_opened};
pub use beside::{Beside, News, Nothing};
pub use carrying::{Entries, Next, act, act_beside, carry, carry_beside, refused};
pub use following::{Behind, follow};
pub use hearing::open_attempt;
pub use moves::Move;
pub use options::FlashOptions;
pub use pair_fields::{collides, is_engaged, is_torn, with_more};
pub use pairs::{is_cascaded, is_quiet, is_unpaired, pair_state, secondary_state};
pub use performing::{Act, perform};
pub use place::{server_of, tracks_of};
pub use placing::{destage_told, place_staged};
pub use reads::read_told;
pub use sets::{lowest, rest};
