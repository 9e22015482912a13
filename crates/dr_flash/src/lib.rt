//! FlashCopy relationships between volumes of one server: made, ended and carried out, one move of a volume at a time.
//!
//! FlashCopy on a plant. `establish` and `withdraw` end as the machine's entries of `mkflash` and `rmflash` say, each
//! refusal included (`carried`), and a refusal that is no stop changes nothing (`unchanged`). The parts of `establish` can be
//! called one by one: `establish_refusal` is its checks, and `make_target` its move. `copy_step` is the
//! background copy of one track, the lowest that is missing (`carried`, `left`). `copy_first` makes each target of a
//! source keep a track, in order of definition (`carried`), and `keep_on` one volume (`advances`, `halts`). `read_target`
//! and `view_of` give what a track of a target shows (`bytes`). **What volumes show**: after `establish` the target shows
//! what its source shows (`shows`), after `withdraw` the tracks that it held and else zeros (`shows`), and no other volume
//! shows anything new (`others_show`); the background copy and copy first change what no volume shows, wherever they are
//! stopped (`show`), and behind copy first each target that isn't restored onto the source holds the track (`held`). Each
//! call keeps the fields of all volumes lawful and fitting (`rest`, `fit`), touches no other volume (`others`), and counts
//! a fault exactly where a server stopped (`faults`), also where reads may fail. Each move is made by its value
//! (`make_move`, or `make_move_by` where the fields are at hand). `relation_state`, `write_refusal`, `is_settled` and
//! `is_revertible` say how a volume stands.
#![tactic(auto)]

mod ending;
mod fetching;
mod keep;
mod keeping;
mod making;
mod standing;
mod taking;
mod views;

pub use ending::withdraw;
pub use fetching::{copy_step, read_target};
pub use keep::keep_on;
pub use keeping::copy_first;
pub use making::{establish, establish_refusal, make_target};
pub use standing::{
    counted_refusal, is_revertible, is_settled, relation_state, write_refusal, write_refusal_by,
};
pub use views::view_of;
