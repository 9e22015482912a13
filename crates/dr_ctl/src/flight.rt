ghost use Rattle.std.specs.Prelude.{◌≡◌, ◌<◌, ◌+◌, IsTrue, IfSome, IfOk, OnOk, OnErr, option_map};
ghost use Rattle.std.specs.Result.{result_err};
ghost use Rattle.dr_master.specs.Seen.{order_of, reply_of};
ghost use Rattle.dr_model.specs.Messages as model;
ghost use Rattle.dr_model.specs.MessagePlans.{full_refusal};
ghost use Rattle.dr_ctl.specs.Kept.{flight_in, lose_refusal, is_order_in, is_current_in, answered_in};
ghost use Rattle.dr_ctl.specs.Seen.{message_of, with_next};

use crate::counts::{Counts, Rows, no_counts, no_rows, put};
use crate::list::{message_numbered, place_of, take_out, take_session_out};
use crate::message::{Message, Numbered};
use dr_ids::{Kind, MOST_SERVERS, Refusal, ServerId, SessionId, Which};
use dr_master::{Order, Reply};
use std::alloc::{AllocError, Global};
use std::marker::Model;

/// How many messages are in flight at most.
const MOST_MESSAGES: usize = 256;

/// What a message is refused with where as many are in flight.
const FULL: Refusal = Refusal::Limit {
    which: Which::Messages,
};

/// The messages in flight in the order in which they were made, and how many ever were. Of each server, how often it was started;
/// of each number of a session, its epoch, and the fence of each server.
#[derive(Drop)]
pub struct Flight {
    messages: Vec<Numbered>,
    made: u32,
    starts: [u32; MOST_SERVERS],
    epochs: Counts,
    fences: Rows,
}

impl Model for Flight {
    ghost use Rattle.dr_ctl.specs.Kept.{KeptFlight};

    ghost Value = { KeptFlight };

    ghost use Rattle.dr_ctl.specs.Seen.{kept_of};
    ghost use Rattle.dr_ctl.specs.Sound.{IsSoundFlight};

    ghost view = { kept_of };

    ghost invariant = { λ f. IsSoundFlight (kept_of f) };
}

impl Flight {
    /// Nothing was sent, and no server started.
    pub fn new(alloc: Global) -> Flight
        ensures { flight_in result ≡ model.no_flight }
    {
        Flight {
            messages: Vec::new(alloc),
            made: 0,
            starts: [0; MOST_SERVERS],
            epochs: no_counts(),
            fences: no_rows(),
        }
    }

    /// Makes room for one more message: the next `send` or `answer` takes no memory then.
    pub fn reserve(&mut self) -> Result<(), AllocError>
        ensures same { flight_in self.new ≡ flight_in self.old }
        ensures room { OnOk result (IsTrue self.new.room) }
    {
        self.messages.reserve(1)
    }

    /// Sends an order of a session's master to a server, in room that was reserved, and gives the message's number. Refused where
    /// 256 messages are in flight; then nothing has changed.
    pub fn send(&mut self, s: SessionId, server: ServerId, o: Order) -> Result<u32, Refusal>
        requires room { IsTrue self.old.room }
        requires numbers { (flight_in self.old).made < 4294967295 }
        requires server { server.0 < 8 }
        ensures refused { result_err result ≡ full_refusal (flight_in self.old) }
        ensures number { IfOk result (λ m. m ≡ (flight_in self.old).made + 1) }
        ensures sent { OnOk result (flight_in self.new ≡ model.sent s.0 server.0 (order_of o) (flight_in self.old)) }
        ensures same { OnErr result (self.new ≡ self.old) }
    {
        if self.is_full() {
            return Err(FULL);
        }
        let message = Message::Order {
            session: s,
            epoch: self.epoch(s),
            server,
            order: o,
            starts: self.starts[usize::from(server.0)],
        };
        Ok(self.add(message))
    }

    /// The server replies to an order that is in flight, in room that was reserved; gives the reply's number. Refused where 256
    /// messages are in flight; then nothing has changed.
    pub fn answer(&mut self, m: u32, r: Reply) -> Result<u32, Refusal>
        requires room { IsTrue self.old.room }
        requires numbers { (flight_in self.old).made < 4294967295 }
        requires order { IsTrue (is_order_in (model.message_in (flight_in self.old) m)) }
        ensures refused { result_err result ≡ full_refusal (flight_in self.old) }
        ensures number { IfOk result (λ n. n ≡ (flight_in self.old).made + 1) }
        ensures answered { OnOk result (flight_in self.new ≡ answered_in (model.message_in (flight_in self.old) m) (reply_of r) (flight_in self.old)) }
        ensures same { OnErr result (self.new ≡ self.old) }
    {
        if self.is_full() {
            return Err(FULL);
        }
        let Some(
            Message::Order {
                session,
                epoch,
                server,
                order,
                ..
            },
        ) = self.get(m)
        else {
            unreachable!()
        };
        Ok(self.add(Message::Reply {
            session,
            epoch,
            server,
            order,
            reply: r,
        }))
    }

    /// Whether no more messages have room.
    pub fn is_full(&self) -> bool
        ensures { result ≡ model.is_full (flight_in self.now) }
    {
        MOST_MESSAGES <= self.messages.len()
    }

    /// The message of that number, if it is in flight.
    pub fn get(&self, m: u32) -> Option<Message>
        ensures value { option_map (message_of m) result ≡ model.message_in (flight_in self.now) m }
        ensures low { IfSome result (λ x. (message_of m x).server < 8) }
    {
        message_numbered(&self.messages, m)
    }

    /// The message is gone. Refused where it isn't in flight; then nothing has changed.
    pub fn lose(&mut self, m: u32) -> Result<(), Refusal>
        ensures refused { result_err result ≡ lose_refusal (model.message_in (flight_in self.old) m) }
        ensures lost { OnOk result (flight_in self.new ≡ model.lost m (flight_in self.old)) }
        ensures same { OnErr result (self.new ≡ self.old) }
    {
        match place_of(&self.messages, m) {
            Some(i) => {
                take_out(&mut self.messages, i);
                Ok(())
            }
            None => Err(Refusal::Unknown {
                kind: Kind::Message,
            }),
        }
    }

    /// All messages of the session are gone.
    pub fn forget(&mut self, s: SessionId)
        ensures { flight_in self.new ≡ model.forgotten s.0 (flight_in self.old) }
    {
        take_session_out(&mut self.messages, s);
    }

    /// Whether the message is an order that is still one to carry out: its server wasn't started since it was sent, and has
    /// reported for no later epoch.
    pub fn is_current(&self, m: u32) -> bool
        ensures { result ≡ is_current_in (flight_in self.now) (model.message_in (flight_in self.now) m) }
    {
        match self.get(m) {
            Some(
                Message::Order {
                    session,
                    epoch,
                    server,
                    starts,
                    ..
                },
            ) => {
                starts == self.starts[usize::from(server.0)] && self.fence(session, server) <= epoch
            }
            Some(Message::Reply { .. }) | None => false,
        }
    }

    /// A server was started once more.
    pub fn started(&mut self, server: ServerId)
        requires server { server.0 < 8 }
        requires count { (flight_in self.old).starts server.0 < 4294967295 }
        ensures started { flight_in self.new ≡ model.started server.0 (flight_in self.old) }
        ensures room { self.new.room ≡ self.old.room }
    {
        self.starts[usize::from(server.0)] += 1;
    }

    /// A new epoch begins for the session.
    pub fn raise(&mut self, s: SessionId)
        requires { (flight_in self.old).epoch s.0 < 4294967295 }
        ensures raised { flight_in self.new ≡ model.raised s.0 (flight_in self.old) }
        ensures room { self.new.room ≡ self.old.room }
    {
        self.epochs[usize::from(s.0)] += 1;
    }

    /// The session's epoch.
    pub fn epoch(&self, s: SessionId) -> u32
        ensures { result ≡ (flight_in self.now).epoch s.0 }
    {
        self.epochs[usize::from(s.0)]
    }

    /// A server has reported for that epoch of the session: its fence is no lower from now on.
    pub fn raise_fence(&mut self, s: SessionId, server: ServerId, epoch: u32)
        requires { server.0 < 8 }
        ensures fenced { flight_in self.new ≡ model.fenced s.0 server.0 epoch (flight_in self.old) }
        ensures room { self.new.room ≡ self.old.room }
    {
        let fence = self.fence(s, server).max(epoch);
        put(&mut self.fences, s, server, fence);
    }

    // The latest epoch of the session for which the server has reported.
    fn fence(&self, s: SessionId, server: ServerId) -> u32
        requires { server.0 < 8 }
        ensures { result ≡ (flight_in self.now).fence s.0 server.0 }
    {
        self.fences[usize::from(s.0)][usize::from(server.0)]
    }

    // Adds a message, and gives its number.
    fn add(&mut self, message: Message) -> u32
        requires room { IsTrue self.old.room }
        requires numbers { (flight_in self.old).made < 4294967295 }
        requires low { (message_of 0 message).server < 8 }
        ensures number { result ≡ (flight_in self.old).made + 1 }
        ensures added { flight_in self.new ≡ with_next message (flight_in self.old) }
    {
        self.made += 1;
        let _pushed = self.messages.push(Numbered {
            number: self.made,
            message,
        });
        self.made
    }
}
