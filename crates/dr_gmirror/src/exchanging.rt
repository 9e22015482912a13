//! A session's master and a server exchange an order and the reply.

ghost use Rattle.std.specs.Prelude.{◌≡◌, ◌≢◌, ℕ, ◌<◌, ◌≤◌, ◌+◌, ◌&&◌, true, false, length, None, Some, Ok, IfSome, IfOk, List, OnOk, OnErr, option_map, if◌then◌else◌};
ghost use Rattle.std.specs.Option.{option_or};
ghost use Rattle.std.specs.Result.{result_and};
ghost use Rattle.dr_logic.specs.Counts.{Counted};
ghost use Rattle.dr_ids.specs.declared.names.Member.{Member};
ghost use Rattle.dr_ids.specs.declared.refusal.PhaseName.TheVariants as phase;
ghost use Rattle.dr_ids.specs.declared.refusal.Refusal.{Refusal};
ghost use Rattle.dr_model.specs.declared.event.Event.{Event};
ghost use Rattle.dr_model.specs.Entries.{fields_at};
ghost use Rattle.dr_model.specs.Groups.{In};
ghost use Rattle.dr_model.specs.Laws.{Sound};
ghost use Rattle.dr_model.specs.Pairs.{is_secondary_of};
ghost use Rattle.dr_model.specs.Phases as phases;
ghost use Rattle.dr_model.specs.SessionEntries.{members_on};
ghost use Rattle.dr_model.specs.SessionPlans as plans;
ghost use Rattle.dr_model.specs.Sessions as model;
ghost use Rattle.dr_model.specs.Sessions.{Session};
ghost use Rattle.dr_master.specs.Seen as master;
ghost use Rattle.dr_master.specs.Seen.{reply_of, count_in};
ghost use Rattle.dr_volume.specs.View.{Rest};
ghost use Rattle.dr_moves.specs.Checks.{OnNone, is_stop};
ghost use Rattle.dr_moves.specs.Fit.{RelationsFit};
ghost use Rattle.dr_moves.specs.Here.{world_seen, refusal_of, armed_in, IsAtRest};
ghost use Rattle.dr_moves.specs.Made.{IsAt, Kept};
ghost use Rattle.dr_moves.specs.Aside.{AsideFits};
ghost use Rattle.dr_laws_recovery.specs.TakenOver.{IsLeft};
ghost use Rattle.dr_gmirror.specs.Orders.{with_sessions, AreReady};
ghost use Rattle.dr_gmirror.specs.Exchange.{PlanEnds, exchange_answer, exchange_rest, asking_refusal_in, refusal_in, order_in, says_shown, members_in_reply, is_awaited, can_settle, Looks, IsNear, MayExchange};

use crate::looks::{Look, apart_refusal, has_member_on, idle_refusal, is_idle, off_refusal};
use crate::orders::carry_out;
use dr_config::Config;
use dr_ids::{PhaseName, Refusal, ServerId, SessionId};
use dr_master::{Order, OrderKind, Reply};
use dr_model::Journal;
use dr_plant::Plant;
use dr_session::Sessions;

/// How many members a report has places for.
const PLACES: u8 = 64;

/// Why the server has no exchange with the master in its phase: where no attempt goes on, none begins with it; else it isn't
/// owed an order.
fn phase_refusal(ss: &Sessions, s: SessionId, server: ServerId, x: &Look) -> Option<Refusal>
    ensures refusal { (r : model.Mirror) → Looks x.now r server.0 → r.master.phase ≢ phase.None → result ≡ plans.phase_refusal r server.0 (model.members_in (model.session_in ss.now.sessions s.0)) }
    ensures number { OnNone result (plans.is_idle x.now.phase ≡ true → x.now.number + 1 < 4294967296) }
    ensures calm { is_stop result ≡ false }
{
    if is_idle(x.phase) {
        return idle_refusal(x.paused, x.number, has_member_on(ss, s, server));
    }
    if x.owed.is_some() {
        return None;
    }
    Some(Refusal::OutOfOrder { phase: x.phase })
}

/// Why the master has no order for the server: the master's server is off, or else the phase says so.
fn asking_refusal<P: Plant>(
    plant: &P,
    config: &Config,
    ss: &Sessions,
    s: SessionId,
    server: ServerId,
    x: &Look,
) -> Option<Refusal>
    requires master_low { x.now.server.0 < 8 }
    ensures refusal { (q : Rest) (events : List Event) (r : model.Mirror) → Looks x.now r server.0 → r.master.phase ≢ phase.None → result ≡ option_or (plans.off_refusal (world_seen (P.state plant.now) config.now q events).control r.server)
        (plans.phase_refusal r server.0 (model.members_in (model.session_in ss.now.sessions s.0))) }
    ensures number { OnNone result (plans.is_idle x.now.phase ≡ true → x.now.number + 1 < 4294967296) }
    ensures calm { is_stop result ≡ false }
{
    if let Some(why) = off_refusal(plant, config, x.server) {
        return Some(why);
    }
    phase_refusal(ss, s, server, x)
}

/// Why the server and the master have no exchange: the master has no order for it, or else the server is off, or else the link
/// between the two servers is down.
fn exchange_refusal<P: Plant>(
    plant: &P,
    config: &Config,
    ss: &Sessions,
    s: SessionId,
    server: ServerId,
    x: &Look,
) -> Option<Refusal>
    requires low { server.0 < 8 }
    requires known { server.0 < length config.now.names }
    requires master_low { x.now.server.0 < 8 }
    requires master_known { x.now.server.0 < length config.now.names }
    ensures refusal { (q : Rest) (events : List Event) (r : model.Mirror) → Looks x.now r server.0 → r.master.phase ≢ phase.None → result ≡ plans.exchange_refusal (world_seen (P.state plant.now) config.now q events).control r server.0 (model.members_in (model.session_in ss.now.sessions s.0)) }
    ensures running { OnNone result ((P.state plant.now).on server.0 ≡ true) }
    ensures number { OnNone result (plans.is_idle x.now.phase ≡ true → x.now.number + 1 < 4294967296) }
    ensures calm { is_stop result ≡ false }
{
    if let Some(why) = asking_refusal(plant, config, ss, s, server, x) {
        return Some(why);
    }
    if let Some(why) = off_refusal(plant, config, server) {
        return Some(why);
    }
    apart_refusal(config, x.server, server)
}

/// The order that the server carries out: the one that it is owed, or where no attempt goes on the first one of the next.
fn order_of(x: &Look) -> Option<Order>
    requires { plans.is_idle x.now.phase ≡ true → x.now.number + 1 < 4294967296 }
    ensures { (r : model.Mirror) (server : ℕ) → Looks x.now r server → option_map master.order_of result ≡ plans.order_of r server }
{
    if is_idle(x.phase) {
        return Some(Order {
            kind: OrderKind::Hold,
            n: x.number + 1,
        });
    }
    x.owed
}

/// The order that a session's master has for a server: the one that it owes it, or where no attempt goes on the hold of the next
/// attempt. Refused where the session has no master, or else where the master's server is off; or else, where no attempt goes
/// on, where the master is paused or the server has no members, or the next number would be 2^32, and in other phases where the
/// server isn't owed the phase's order. Whether the server can be reached isn't asked.
pub fn asked_order<P: Plant>(
    plant: &P,
    config: &Config,
    ss: &Sessions,
    s: SessionId,
    server: ServerId,
) -> Result<Order, Refusal>
    requires low { server.0 < 8 }
    requires near { IfSome (model.mirror_in (model.session_in ss.now.sessions s.0)) (IsNear (length config.now.names)) }
    ensures refused { (q : Rest) (events : List Event) → refusal_of result ≡ asking_refusal_in (world_seen (P.state plant.now) config.now q events).control (model.mirror_in (model.session_in ss.now.sessions s.0)) server.0 (model.members_in (model.session_in ss.now.sessions s.0)) }
    ensures order { IfOk result (λ o. order_in (model.mirror_in (model.session_in ss.now.sessions s.0)) server.0 ≡ Some (master.order_of o)) }
    ensures calm { is_stop (refusal_of result) ≡ false }
{
    let Some(x) = Look::at(ss, s, server) else {
        return Err(Refusal::OutOfOrder {
            phase: PhaseName::None,
        });
    };
    if let Some(why) = asking_refusal(plant, config, ss, s, server, &x) {
        return Err(why);
    }
    match order_of(&x) {
        Some(order) => Ok(order),
        None => Err(Refusal::OutOfOrder {
            phase: PhaseName::None,
        }),
    }
}

/// Whether a reply says what members show.
fn is_report(y: &Reply) -> bool
    ensures { result ≡ says_shown (reply_of y.now) }
{
    matches!(y, Reply::Report(_))
}

/// A lost master to which all have reported goes on, where it is one.
fn settle_if(ss: &mut Sessions, s: SessionId, on: bool)
    ensures { ss.new.sessions ≡ (if on && can_settle (model.mirror_in (model.session_in ss.old.sessions s.0)) then model.changed s.0 (model.with_master phases.settled) ss.old.sessions else ss.old.sessions) }
{
    if on && ss.can_settle(s) {
        ss.settle_start(s);
    }
}

/// The same reply, of which the count is that of the members it shows: a report has 64 places.
fn counted(y: Reply) -> Reply
    ensures says { reply_of result ≡ reply_of y }
    ensures count { count_in result ≡ members_in_reply (reply_of result) }
{
    match y {
        Reply::Report(shown) => {
            let mut report = shown;
            report.count = report.count.min(PLACES);
            Reply::Report(report)
        }
        Reply::Done => Reply::Done,
        Reply::NotYet => Reply::NotYet,
    }
}

/// The session's master takes the reply of a server, which it awaits, and a lost one goes on after the last report. Nothing else
/// of the sessions changes. All reports to the master speak of 64 members at most.
pub fn take_reply(ss: &mut Sessions, s: SessionId, server: ServerId, y: Reply)
    requires server { server.0 < 8 }
    requires awaited { is_awaited (model.mirror_in (model.session_in ss.old.sessions s.0)) server.0 (reply_of y) ≡ true }
    ensures { ss.new.sessions ≡ model.changed s.0 (model.with_master (λ m. phases.taken m server.0 (reply_of y))) ss.old.sessions }
{
    let report = is_report(&y);
    ss.reply(s, server, counted(y));
    settle_if(ss, s, report);
}

/// The same, where it does.
fn reply_if(ss: &mut Sessions, s: SessionId, server: ServerId, y: Reply, on: bool)
    requires server { server.0 < 8 }
    requires awaited { on ≡ true → is_awaited (model.mirror_in (model.session_in ss.old.sessions s.0)) server.0 (reply_of y) ≡ true }
    ensures { ss.new.sessions ≡ (if on then model.changed s.0 (model.with_master (λ m. phases.taken m server.0 (reply_of y))) ss.old.sessions else ss.old.sessions) }
{
    if on {
        take_reply(ss, s, server, y);
    }
}

/// The server carries out the order, of which the kind is given back, and the master may learn of its reply.
fn exchange_order<P: Plant>(
    plant: &mut P,
    config: &Config,
    journal: &mut Journal,
    ss: &mut Sessions,
    s: SessionId,
    server: ServerId,
    order: Order,
    reply: bool,
) -> Result<OrderKind, Refusal>
    requires at { IsAt (P.state plant.old) config.now }
    requires aside { AsideFits (P.state plant.old) config.now }
    requires members { AreReady (P.state plant.old) config.now (model.members_in (model.session_in ss.old.sessions s.0)) }
    requires running { (P.state plant.old).on server.0 ≡ true }
    requires low { server.0 < 8 }
    requires few { length (model.members_in (model.session_in ss.old.sessions s.0)) ≤ 64 }
    requires may { (r : Rest) × MayExchange (world_seen (P.state plant.old) config.now (with_sessions ss.old.sessions r) journal.old.events) s.0 server.0 (master.order_of order) }
    requires room { length (model.members_in (model.session_in ss.old.sessions s.0)) + length (model.members_in (model.session_in ss.old.sessions s.0)) + 2 ≤ journal.old.spare }
    ensures carried { (r : Rest) → PlanEnds (armed_in (P.state plant.old)) (world_seen (P.state plant.old) config.now (with_sessions ss.old.sessions r) journal.old.events)
        (plans.exchange_done s.0 server.0 reply (members_on server.0 (model.members_in (model.session_in ss.old.sessions s.0))) (Some (master.order_of order)))
        (world_seen (P.state plant.new) config.now (exchange_rest result s.0 server.0 ss.new.sessions r) journal.new.events) (exchange_answer result s.0 (world_seen (P.state plant.new) config.now (exchange_rest result s.0 server.0 ss.new.sessions r) journal.new.events).control) }
    ensures kept { Kept (P.state plant.old) (P.state plant.new) config.now journal.old journal.new (length (model.members_in (model.session_in ss.old.sessions s.0)) + length (model.members_in (model.session_in ss.old.sessions s.0)) + 2) (is_stop (refusal_of result)) (result_and result (Ok tt)) }
{
    match carry_out(plant, config, journal, ss, s, server, order) {
        Ok(y) => {
            reply_if(ss, s, server, y, reply);
            Ok(order.kind)
        }
        Err(why) => Err(why),
    }
}

/// A server carries out what a session's master asks of it, and the master learns of the reply where it is to. The kind of the
/// order is given back: a report raises the server's fence to the session's epoch, which the caller is to do. Where no attempt
/// goes on, the exchange begins one: the order is the hold of the next attempt. Refused where the session has no master, or
/// else where the master's server is off; or else, where no attempt goes on, where the master is paused or the server has no
/// members, or the next number would be 2^32, and in other phases where the server isn't owed the phase's order; or else where
/// the server is off, or else where the link between the two servers is down. Then nothing has changed. Fails too where a
/// member refuses, or where a server stops in a move or goes off at a read; what was done by then stays, and the master learns
/// of nothing. A lost master to which all have reported goes on by what they show. In a sound world the target of a member
/// whose secondary isn't its primary's, as after a takeover, stays as it is. The journal needs room for two events for each of
/// the session's members, which are at most 64, and two more.
pub fn exchange<P: Plant>(
    plant: &mut P,
    config: &Config,
    journal: &mut Journal,
    ss: &mut Sessions,
    s: SessionId,
    server: ServerId,
    reply: bool,
) -> Result<OrderKind, Refusal>
    requires rest { IsAtRest (P.state plant.old) config.now }
    requires fit { RelationsFit (P.state plant.old) config.now }
    requires aside { AsideFits (P.state plant.old) config.now }
    requires members { AreReady (P.state plant.old) config.now (model.members_in (model.session_in ss.old.sessions s.0)) }
    requires low { server.0 < 8 }
    requires known { server.0 < length config.now.names }
    requires few { length (model.members_in (model.session_in ss.old.sessions s.0)) ≤ 64 }
    requires near { IfSome (model.mirror_in (model.session_in ss.old.sessions s.0)) (IsNear (length config.now.names)) }
    requires may { (r : Rest) × ((o : phases.Order)
        → refusal_in (world_seen (P.state plant.old) config.now (with_sessions ss.old.sessions r) journal.old.events).control (model.mirror_in (model.session_in ss.old.sessions s.0)) server.0 (model.members_in (model.session_in ss.old.sessions s.0)) ≡ None
        → order_in (model.mirror_in (model.session_in ss.old.sessions s.0)) server.0 ≡ Some o → MayExchange (world_seen (P.state plant.old) config.now (with_sessions ss.old.sessions r) journal.old.events) s.0 server.0 o) }
    requires room { length (model.members_in (model.session_in ss.old.sessions s.0)) + length (model.members_in (model.session_in ss.old.sessions s.0)) + 2 ≤ journal.old.spare }
    ensures carried { (r : Rest) → PlanEnds (armed_in (P.state plant.old)) (world_seen (P.state plant.old) config.now (with_sessions ss.old.sessions r) journal.old.events)
        (plans.exchange_on (world_seen (P.state plant.old) config.now (with_sessions ss.old.sessions r) journal.old.events).control s.0 (model.mirror_in (model.session_in ss.old.sessions s.0)) server.0 reply (model.members_in (model.session_in ss.old.sessions s.0)))
        (world_seen (P.state plant.new) config.now (exchange_rest result s.0 server.0 ss.new.sessions r) journal.new.events) (exchange_answer result s.0 (world_seen (P.state plant.new) config.now (exchange_rest result s.0 server.0 ss.new.sessions r) journal.new.events).control) }
    ensures refused { (r : Rest) (why : Refusal) → refusal_in (world_seen (P.state plant.old) config.now (with_sessions ss.old.sessions r) journal.old.events).control (model.mirror_in (model.session_in ss.old.sessions s.0)) server.0 (model.members_in (model.session_in ss.old.sessions s.0)) ≡ Some why
        → (refusal_of result ≡ Some why) × (P.state plant.new ≡ P.state plant.old) × (journal.new ≡ journal.old) × (ss.new ≡ ss.old) }
    ensures leaves { (r : Rest) (x : Session) (m : Member) → Sound (world_seen (P.state plant.old) config.now (with_sessions ss.old.sessions r) journal.old.events) → In x ss.old.sessions → In m x.members
        → is_secondary_of m.a.0 (fields_at (world_seen (P.state plant.old) config.now (with_sessions ss.old.sessions r) journal.old.events).control m.b.0) ≡ false
        → IsLeft (world_seen (P.state plant.old) config.now (with_sessions ss.old.sessions r) journal.old.events) (world_seen (P.state plant.new) config.now (exchange_rest result s.0 server.0 ss.new.sessions r) journal.new.events) m }
    ensures rest { IsAtRest (P.state plant.new) config.now }
    ensures fit { RelationsFit (P.state plant.new) config.now }
    ensures aside { AsideFits (P.state plant.new) config.now }
    ensures unarmed { (q : ℕ) → (P.state plant.old).read_fuse q ≡ None → (P.state plant.new).read_fuse q ≡ None }
    ensures faults { Counted (is_stop (refusal_of result)) (P.state plant.old).faults (P.state plant.new).faults }
    ensures on { OnOk result ((P.state plant.new).on ≡ (P.state plant.old).on) }
    ensures room { journal.old.spare ≤ journal.new.spare + (length (model.members_in (model.session_in ss.old.sessions s.0)) + length (model.members_in (model.session_in ss.old.sessions s.0)) + 2) }
    ensures spare { length journal.new.events + journal.new.spare ≡ length journal.old.events + journal.old.spare }
{
    let Some(x) = Look::at(ss, s, server) else {
        return Err(Refusal::OutOfOrder {
            phase: PhaseName::None,
        });
    };
    if let Some(why) = exchange_refusal(plant, config, ss, s, server, &x) {
        return Err(why);
    }
    let Some(order) = order_of(&x) else {
        return Err(Refusal::OutOfOrder {
            phase: PhaseName::None,
        });
    };
    exchange_order(plant, config, journal, ss, s, server, order, reply)
}
