//! A record in two slots of a device behind a gate, of which the one that the gate chooses counts.
//!
//! After `put` the device chooses the old value or the new one, at every stop, whatever a torn write left
//! (`old_or_new`); the new one where it answers Ok (`done`). Its device writes are an exact list (`writes`). No other
//! device and no block behind the two slots changes (`elsewhere`). `read_choice` reads which slot the device chooses
//! (`slot`), and `peek_choice` looks. `put_blocks` makes the device writes of `put` from blocks at hand. A `Cell` keeps the value beside the slot: `Cell::load` gives the value that the device
//! chooses (`value`), and `Cell::put` puts the next one in its place.
#![tactic(auto)]

mod cell;
mod form;
mod record;
mod slot;

pub use cell::Cell;
pub use form::Form;
pub use record::{peek_choice, put, put_blocks, read_choice};
