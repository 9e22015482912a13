//! The text that a journal prints: one line for each answer, and each line of a listing or an image, in order.
//!
//! `text_on` is the text of a journal's events from a place on, each byte of it, in a buffer that is used again: one
//! line, or none, for each event. It keeps in a `Heard` what the events so far have told, the names of servers and the
//! track shown, so that it doesn't search the journal. A line is put together on the stack, from its end (`Tail`), and
//! added by one call. `text` is the same from the journal's events alone. Their one
//! error says that there was no memory. `push_said` adds what one answer says. An image's events print the text of the image (`image-printed` of `dr_facts`).
#![tactic(auto)]

mod images;
mod lines;
mod listings;
mod pieces;
mod said;
mod tail;
mod told;
mod values;

pub use lines::{text, text_on};
pub use said::push_said;
pub use told::Heard;
