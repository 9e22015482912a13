//! A control message.

ghost use Rattle.std.specs.Prelude.{◌≡◌, ℕ};
ghost use Rattle.dr_ctl.specs.Seen.{message_of, seen};

use dr_ids::{ServerId, SessionId};
use dr_master::{Order, Reply};

/// A message on its way, with the session, the epoch and the server that it belongs to.
#[derive(Clone, Copy)]
pub enum Message {
    /// An order to the server, sent when that had been started so often.
    Order {
        session: SessionId,
        epoch: u32,
        server: ServerId,
        order: Order,
        starts: u32,
    },
    /// What the server replied to an order, in whose epoch this stays.
    Reply {
        session: SessionId,
        epoch: u32,
        server: ServerId,
        order: Order,
        reply: Reply,
    },
}

impl Message {
    // The session that it belongs to.
    fn session(&self) -> SessionId
        ensures { (n : ℕ) → result.0 ≡ (message_of n self.now).session }
    {
        match self {
            Message::Order { session, .. } | Message::Reply { session, .. } => *session,
        }
    }
}

/// A message with its number.
#[derive(Clone, Copy)]
pub(crate) struct Numbered {
    pub(crate) number: u32,
    pub(crate) message: Message,
}

impl Numbered {
    // The session that the message belongs to.
    pub(crate) fn session(&self) -> SessionId
        ensures { result.0 ≡ (seen self.now).session }
    {
        self.message.session()
    }
}
