//! The step in which a message arrives: an order at its server, or a reply at the session's master.

ghost use Rattle.std.specs.Prelude.{◌≡◌, ℕ, ◌<◌, ◌≤◌, true, false, [], length, None, Some, IsTrue, IfSome, if◌then◌else◌};
ghost use Rattle.dr_ids.specs.declared.refusal.Refusal.TheVariants.{OldMessage};
ghost use Rattle.dr_ids.specs.declared.refusal.Kind.TheVariants.{Message as OfMessage};
ghost use Rattle.dr_ctl.specs.Kept.{flight_in};
ghost use Rattle.dr_master.specs.Seen.{order_of, reply_of};
ghost use Rattle.dr_model.specs.Groups.{In};
ghost use Rattle.dr_model.specs.Laws.{Sound};
ghost use Rattle.dr_model.specs.Limits.{step_events};
ghost use Rattle.dr_model.specs.MessagePlans as plans;
ghost use Rattle.dr_model.specs.Messages as messages;
ghost use Rattle.dr_model.specs.Phases as phases;
ghost use Rattle.dr_model.specs.Refusals.{unknown};
ghost use Rattle.dr_model.specs.Runs.{after_plan, said};
ghost use Rattle.dr_model.specs.SessionEntries.{members_on};
ghost use Rattle.dr_model.specs.Sessions as model;
ghost use Rattle.dr_model.specs.declared.step.Step.{Step};
ghost use Rattle.dr_moves.specs.Checks.{is_stop};
ghost use Rattle.dr_gmirror.specs.Exchange.{IsNear};
ghost use Rattle.dr_steps.specs.Arrivals.{message_at, order_refusal_in, reply_refusal_in, arrives, posted_by};
ghost use Rattle.dr_steps.specs.Faults.{CountsStop};
ghost use Rattle.dr_steps.specs.Here.{here, said_of, OnAnswer, OnNoMemory, IsReady, Carries};
ghost use Rattle.dr_steps.specs.Wants.{WantsRow};

use crate::answers::refused;
use crate::exchanges::tell_few;
use crate::locate::{off_refusal, unknown_session};
use crate::messages::hear;
use crate::sending::full_refusal;
use crate::sessions::phase_of;
use crate::tables::Tables;
use dr_config::Config;
use dr_ctl::Message;
use dr_gmirror::{apart_refusal, carry_out, take_reply};
use dr_ids::{Fault, Kind, PhaseName, Refusal, ServerId, SessionId};
use dr_master::{Order, Reply};
use dr_model::{Addition, Journal};
use dr_plant::Plant;
use dr_session::Sessions;

/// What a message that arrives says beside its body: its number, its session and the epoch in which the order was sent, the
/// server that the order went to, and the order.
#[derive(Clone, Copy)]
struct Arrived {
    number: u32,
    session: SessionId,
    epoch: u32,
    server: ServerId,
    order: Order,
}

/// No message in flight has that number.
fn unknown_message() -> Refusal
    ensures { result ≡ unknown OfMessage }
{
    Refusal::Unknown {
        kind: Kind::Message,
    }
}

/// The session has no master.
fn no_master() -> Refusal
    ensures { Some result ≡ model.no_master }
{
    Refusal::OutOfOrder {
        phase: PhaseName::None,
    }
}

/// A message is an old one, unless it is one to heed.
fn old_refusal(number: u32, heeded: bool) -> Option<Refusal>
    ensures refusal { result ≡ (if heeded then None else Some (OldMessage number)) }
    ensures calm { is_stop result ≡ false }
{
    if heeded {
        return None;
    }
    Some(Refusal::OldMessage { m: number })
}

/// Why an order that arrives isn't carried out: its session isn't defined, its server is off, the session has no master, the
/// link between that one's server and its own is down, there is no room for the reply, or it is an old one.
fn order_refusal<P: Plant>(
    plant: &P,
    config: &Config,
    tables: &Tables,
    x: &Arrived,
) -> Option<Refusal>
    requires low { x.now.server.0 < 8 }
    requires known { x.now.server.0 < length config.now.names }
    requires near { IfSome (model.mirror_in (model.session_in tables.now.sessions.sessions x.now.session.0)) (IsNear (length config.now.names)) }
    ensures refusal { (starts : ℕ) → messages.message_in (flight_in tables.now.flight) x.now.number ≡ Some (message_at x.now (messages.Asks starts))
        → result ≡ order_refusal_in (here (P.state plant.now) config.now tables.now []).control x.now starts }
    ensures calm { is_stop result ≡ false }
{
    if !tables.sessions.is_defined(x.session) {
        return Some(unknown_session());
    }
    if let Some(why) = off_refusal(plant, x.server) {
        return Some(why);
    }
    let Some(master) = tables.sessions.master_server(x.session) else {
        return Some(no_master());
    };
    if let Some(why) = apart_refusal(config, master, x.server) {
        return Some(why);
    }
    if let Some(why) = full_refusal(&tables.flight) {
        return Some(why);
    }
    old_refusal(x.number, tables.flight.is_current(x.number))
}

/// A message was made, and its number is the answer; or there was no room for it.
fn posted(made: Result<u32, Refusal>) -> Result<Addition, Refusal>
    ensures { said_of result ≡ posted_by made }
{
    match made {
        Ok(m) => Ok(Addition::Posted { m }),
        Err(why) => Err(why),
    }
}

/// The server carries out the order over its members, and replies. A report raises its fence to the epoch of the order.
fn carry_order<P: Plant>(
    plant: &mut P,
    config: &Config,
    tables: &mut Tables,
    journal: &mut Journal,
    x: &Arrived,
) -> Result<Addition, Refusal>
    requires ready { IsReady (P.state plant.old) config.now tables.old journal.old.events }
    requires sound { Sound (here (P.state plant.old) config.now tables.old journal.old.events) }
    requires low { x.now.server.0 < 8 }
    requires running { (P.state plant.old).on x.now.server.0 ≡ true }
    requires few { length config.now.volumes ≤ 64 }
    requires found { (starts : ℕ) × (messages.message_in (flight_in tables.old.flight) x.now.number ≡ Some (message_at x.now (messages.Asks starts))) }
    requires space { messages.is_full (flight_in tables.old.flight) ≡ false }
    requires memory { IsTrue tables.old.flight.room }
    requires numbers { (flight_in tables.old.flight).made < 4294967295 }
    requires room { step_events ≤ journal.old.spare }
    ensures step { Carries (here (P.state plant.old) config.now tables.old journal.old.events)
        (plans.order_done (message_at x.now (messages.Asks 0)) (members_on x.now.server.0 (model.members_in (model.session_in tables.old.sessions.sessions x.now.session.0))))
        (here (P.state plant.new) config.now tables.new journal.new.events) (said_of result) }
    ensures faults { CountsStop (said_of result) (P.state plant.old) (P.state plant.new) }
    ensures ready { IsReady (P.state plant.new) config.now tables.new journal.new.events }
    ensures host { tables.new.host ≡ tables.old.host }
    ensures room { 1 ≤ journal.new.spare }
{
    match carry_out(
        plant,
        config,
        journal,
        &mut tables.sessions,
        x.session,
        x.server,
        x.order,
    ) {
        Ok(reply) => {
            hear(
                &mut tables.flight,
                x.session,
                x.server,
                x.epoch,
                x.order.kind,
            );
            posted(tables.flight.answer(x.number, reply))
        }
        Err(why) => Err(why),
    }
}

/// An order arrives at its server. Where there is no memory nothing has changed.
fn deliver_order<P: Plant>(
    plant: &mut P,
    config: &Config,
    tables: &mut Tables,
    journal: &mut Journal,
    x: &Arrived,
) -> Result<Addition, Fault>
    requires ready { IsReady (P.state plant.old) config.now tables.old journal.old.events }
    requires sound { Sound (here (P.state plant.old) config.now tables.old journal.old.events) }
    requires low { x.now.server.0 < 8 }
    requires known { x.now.server.0 < length config.now.names }
    requires found { (starts : ℕ) × (messages.message_in (flight_in tables.old.flight) x.now.number ≡ Some (message_at x.now (messages.Asks starts))) }
    requires few { length config.now.volumes ≤ 64 }
    requires numbers { (flight_in tables.old.flight).made < 4294967295 }
    requires room { step_events ≤ journal.old.spare }
    ensures step { (starts : ℕ) → messages.message_in (flight_in tables.old.flight) x.now.number ≡ Some (message_at x.now (messages.Asks starts))
        → OnAnswer result (λ a. (line : ℕ) → after_plan (here (P.state plant.old) config.now tables.old journal.old.events) line
        (arrives (here (P.state plant.old) config.now tables.old journal.old.events).control (message_at x.now (messages.Asks starts)))
        ≡ said (here (P.state plant.new) config.now tables.new journal.new.events) line a) }
    ensures faults { OnAnswer result (λ a. CountsStop a (P.state plant.old) (P.state plant.new)) }
    ensures wanted { OnNoMemory result ((starts : ℕ) → messages.message_in (flight_in tables.old.flight) x.now.number ≡ Some (message_at x.now (messages.Asks starts))
        → order_refusal_in (here (P.state plant.old) config.now tables.old journal.old.events).control x.now starts ≡ None) }
    ensures same { OnNoMemory result (here (P.state plant.new) config.now tables.new journal.new.events ≡ here (P.state plant.old) config.now tables.old journal.old.events) }
    ensures same_plant { OnNoMemory result (P.state plant.new ≡ P.state plant.old) }
    ensures ready { IsReady (P.state plant.new) config.now tables.new journal.new.events }
    ensures host { tables.new.host ≡ tables.old.host }
    ensures room { 1 ≤ journal.new.spare }
{
    if let Some(why) = order_refusal(plant, config, tables, x) {
        return Err(Fault::Refused(why));
    }
    let Ok(()) = tables.flight.reserve() else {
        return Err(Fault::NoMemory);
    };
    refused(carry_order(plant, config, tables, journal, x))
}

/// Whether the session's master owes the server that order.
fn is_owed(sessions: &Sessions, x: &Arrived) -> bool
    requires { x.now.server.0 < 8 }
    ensures { (r : model.Mirror) → model.mirror_in (model.session_in sessions.now.sessions x.now.session.0) ≡ Some r → result ≡ plans.is_owed_order (phases.order_for r.master x.now.server.0) (order_of x.now.order) }
{
    let Some(master) = sessions.master(x.session) else {
        return false;
    };
    match master.next_order(x.server) {
        Some(owed) => owed == x.order,
        None => false,
    }
}

/// Whether the session's master awaits a reply: it is one of the session's epoch, to just the order that the server is owed.
fn is_awaited(tables: &Tables, x: &Arrived) -> bool
    requires { x.now.server.0 < 8 }
    ensures { (r : model.Mirror) (reply : phases.Reply) → model.mirror_in (model.session_in tables.now.sessions.sessions x.now.session.0) ≡ Some r → result ≡ plans.is_awaited (flight_in tables.now.flight) r (message_at x.now (messages.Replies reply)) }
{
    x.epoch == tables.flight.epoch(x.session) && is_owed(&tables.sessions, x)
}

/// Why a reply that arrives isn't taken: its session isn't defined or has no master, that one's server is off, the link between
/// it and the server that replied is down, or it is an old one.
fn reply_refusal<P: Plant>(
    plant: &P,
    config: &Config,
    tables: &Tables,
    x: &Arrived,
) -> Option<Refusal>
    requires low { x.now.server.0 < 8 }
    requires known { x.now.server.0 < length config.now.names }
    requires near { IfSome (model.mirror_in (model.session_in tables.now.sessions.sessions x.now.session.0)) (IsNear (length config.now.names)) }
    ensures refusal { (reply : phases.Reply) → result ≡ reply_refusal_in (here (P.state plant.now) config.now tables.now []).control (message_at x.now (messages.Replies reply)) }
    ensures calm { is_stop result ≡ false }
{
    if !tables.sessions.is_defined(x.session) {
        return Some(unknown_session());
    }
    let Some(master) = tables.sessions.master_server(x.session) else {
        return Some(no_master());
    };
    if let Some(why) = off_refusal(plant, master) {
        return Some(why);
    }
    if let Some(why) = apart_refusal(config, master, x.server) {
        return Some(why);
    }
    old_refusal(x.number, is_awaited(tables, x))
}

/// A reply arrives at the session's master, which takes it. The answer says the phase that the master is in then.
fn deliver_reply<P: Plant>(
    plant: &P,
    config: &Config,
    tables: &mut Tables,
    journal: &Journal,
    x: &Arrived,
    reply: Reply,
) -> Result<Addition, Refusal>
    requires ready { IsReady (P.state plant.now) config.now tables.old journal.now.events }
    requires sound { Sound (here (P.state plant.now) config.now tables.old journal.now.events) }
    requires low { x.now.server.0 < 8 }
    requires known { x.now.server.0 < length config.now.names }
    requires few { length config.now.volumes ≤ 64 }
    requires found { messages.message_in (flight_in tables.old.flight) x.now.number ≡ Some (message_at x.now (messages.Replies (reply_of reply))) }
    ensures step { (line : ℕ) → after_plan (here (P.state plant.now) config.now tables.old journal.now.events) line
        (arrives (here (P.state plant.now) config.now tables.old journal.now.events).control (message_at x.now (messages.Replies (reply_of reply))))
        ≡ said (here (P.state plant.now) config.now tables.new journal.now.events) line (said_of result) }
    ensures faults { CountsStop (said_of result) (P.state plant.now) (P.state plant.now) }
    ensures host { tables.new.host ≡ tables.old.host }
{
    if let Some(why) = reply_refusal(plant, config, tables, x) {
        return Err(why);
    }
    tell_few(&tables.sessions, x.session);
    take_reply(&mut tables.sessions, x.session, x.server, reply);
    Ok(phase_of(&tables.sessions, x.session))
}

/// A message arrives, and stays in flight: it may come again. An order is carried out by its server, which replies by a message,
/// whose number is the answer; the master takes a reply, and the answer says the phase that it is in then. Refused where no message in
/// flight has the number, or its session isn't defined; where the server of an order is off, the session has no master, the
/// master of a reply is off, or the two servers' link is down; where there is no room for the message that replies; and where
/// it is an old one: an order whose server was started since, or has reported for a later epoch, or a reply that the master
/// doesn't await. Else an order ends as its members say. Where there is no memory nothing has changed.
pub fn deliver<P: Plant>(
    plant: &mut P,
    config: &Config,
    tables: &mut Tables,
    journal: &mut Journal,
    number: u32,
) -> Result<Addition, Fault>
    requires ready { IsReady (P.state plant.old) config.now tables.old journal.old.events }
    requires sound { Sound (here (P.state plant.old) config.now tables.old journal.old.events) }
    requires few { length config.now.volumes ≤ 64 }
    requires homes { (m : messages.Message) → In m (flight_in tables.old.flight).messages → m.server < length config.now.names }
    requires numbers { (flight_in tables.old.flight).made < 4294967295 }
    requires room { step_events ≤ journal.old.spare }
    ensures step { OnAnswer result (λ a. (line : ℕ) → after_plan (here (P.state plant.old) config.now tables.old journal.old.events) line
        (plans.deliver_plan (here (P.state plant.old) config.now tables.old journal.old.events).control number)
        ≡ said (here (P.state plant.new) config.now tables.new journal.new.events) line a) }
    ensures faults { OnAnswer result (λ a. CountsStop a (P.state plant.old) (P.state plant.new)) }
    ensures wanted { OnNoMemory result (WantsRow (here (P.state plant.old) config.now tables.old journal.old.events) (Step.Deliver number)) }
    ensures same { OnNoMemory result (here (P.state plant.new) config.now tables.new journal.new.events ≡ here (P.state plant.old) config.now tables.old journal.old.events) }
    ensures same_plant { OnNoMemory result (P.state plant.new ≡ P.state plant.old) }
    ensures ready { IsReady (P.state plant.new) config.now tables.new journal.new.events }
    ensures host { tables.new.host ≡ tables.old.host }
    ensures room { 1 ≤ journal.new.spare }
{
    match tables.flight.get(number) {
        Some(
            Message::Order {
                session,
                epoch,
                server,
                order,
                ..
            },
        ) => {
            let x = Arrived {
                number,
                session,
                epoch,
                server,
                order,
            };
            deliver_order(plant, config, tables, journal, &x)
        }
        Some(
            Message::Reply {
                session,
                epoch,
                server,
                order,
                reply,
            },
        ) => {
            let x = Arrived {
                number,
                session,
                epoch,
                server,
                order,
            };
            refused(deliver_reply(plant, config, tables, journal, &x, reply))
        }
        None => Err(Fault::Refused(unknown_message())),
    }
}
