//! The journal, the steps of a script, and the definitions that every contract cites.
//!
//! `Journal::push` adds one event and can't fail where room was reserved (`events`, `spare`); `reserve` changes no
//! event (`events`, `room`, `err`), and fails only where less is spare (`wanted`) and its memory has to be of a greater size (`grows`);
//! `event` and `len` read it. `Said::event` is the answer's event, for every refusal
//! and every addition. `image_of` writes what a volume's tracks contain by the host's writes among the first events of
//! a journal (`when`, `image`, `same`). The definitions of the machine stand here.
#![tactic(auto)]

mod event;
mod grammar;
mod image;
mod journal;
mod said;
mod state;
mod step;

pub use event::Event;
pub use grammar::{Command, Item, LinePlace, Operand, Operands, Options, Saying, Setting, Span};
pub use image::image_of;
pub use journal::Journal;
pub use said::{Addition, AnswerNumbers, Said};
pub use state::{PairState, Part};
pub use step::{Devs, Name, PairChoices, Step, TornWord};
