//! The control messages in flight: orders on their way to servers, and replies on theirs to masters.
//!
//! `Flight` is the list of messages with their numbers, and what tells an old order: how often each server was started,
//! the epoch of each session's number, and the fence of each server. `send` and `answer` refuse exactly where 256 messages
//! are in flight (`refused`), and else make the next number (`number`) and exactly this message (`sent`, `answered`); after
//! `reserve` they take no memory (`room`). `get` is the message of a number, `lose` takes it out, and refuses exactly where
//! it isn't there (`refused`), `forget` takes out all of a session, and `is_current` says whether an order is still one to
//! carry out. `started`, `raise` and `raise_fence` change one count each, and nothing else; `epoch` reads one. The functions
//! without code name laws: what holds of a flight, whatever becomes of it.
#![tactic(auto)]

mod counts;
mod flight;
mod laws;
mod list;
mod message;

pub use flight::Flight;
pub use laws::{
    a_message_stays_until_it_is_lost, an_example_of_a_flight, an_old_order_stays_old,
    each_number_is_given_once, no_count_falls,
};
pub use message::Message;
