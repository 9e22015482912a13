//! A server carries out what a session's master orders.

ghost use Rattle.std.specs.Prelude.{◌≡◌, ℕ, ◌≤◌, ◌+◌, true, false, length, None, List, IfOk, OnOk, OnErr, if◌then◌else◌};
ghost use Rattle.dr_logic.specs.Counts.{Counted};
ghost use Rattle.dr_ids.specs.declared.names.Member.{Member};
ghost use Rattle.dr_model.specs.declared.event.Event.{Event};
ghost use Rattle.dr_model.specs.Entries.{fields_at};
ghost use Rattle.dr_model.specs.Groups.{In};
ghost use Rattle.dr_model.specs.Laws.{Sound};
ghost use Rattle.dr_model.specs.Pairs.{is_secondary_of};
ghost use Rattle.dr_model.specs.Phases as phases;
ghost use Rattle.dr_model.specs.ReadStops.{Ends};
ghost use Rattle.dr_model.specs.Sessions as model;
ghost use Rattle.dr_model.specs.Sessions.{Session};
ghost use Rattle.dr_model.specs.SessionEntries.{order_entries, members_on, reply_after};
ghost use Rattle.dr_master.specs.Seen.{work_of, order_of, reply_of, count_in};
ghost use Rattle.dr_volume.specs.View.{Rest};
ghost use Rattle.dr_moves.specs.Checks.{is_stop};
ghost use Rattle.dr_moves.specs.Fit.{RelationsFit};
ghost use Rattle.dr_moves.specs.Here.{world_seen, refusal_of, armed_in, IsAtRest};
ghost use Rattle.dr_moves.specs.Made.{IsAt};
ghost use Rattle.dr_moves.specs.Turns.{Leads, Fails};
ghost use Rattle.dr_moves.specs.Aside.{AsideFits};
ghost use Rattle.dr_laws_recovery.specs.TakenOver.{IsLeft};
ghost use Rattle.dr_gmirror.specs.Exchange.{members_in_reply, Delivers};
ghost use Rattle.dr_gmirror.specs.Orders.{with_sessions, MayOrder, AreReady, is_report};
ghost use Rattle.dr_gmirror.specs.Ordered.{Ordered};

use crate::settling::settle;
use crate::steps::order_on;
use dr_config::Config;
use dr_ids::{Refusal, ServerId, SessionId};
use dr_master::{Order, OrderKind, Reply};
use dr_model::Journal;
use dr_plant::Plant;
use dr_session::Sessions;

/// Whether an order asks what members show.
fn is_report(kind: OrderKind) -> bool
    ensures { result ≡ is_report (work_of kind) }
{
    matches!(kind, OrderKind::Report)
}

/// What a server replies whose members are done, or one of them has to wait.
fn reply_by(waits: bool) -> Reply
    ensures says { reply_of result ≡ (if waits then phases.NotYet else phases.Done) }
    ensures count { count_in result ≡ members_in_reply (reply_of result) }
{
    if waits { Reply::NotYet } else { Reply::Done }
}

/// Carries an order out on the members of a server, in the order in which they came, and tells whether a seal has to wait.
fn order_each<P: Plant>(
    plant: &mut P,
    config: &Config,
    journal: &mut Journal,
    ss: &mut Sessions,
    s: SessionId,
    server: ServerId,
    order: Order,
) -> Result<bool, Refusal>
    requires at { IsAt (P.state plant.old) config.now }
    requires aside { AsideFits (P.state plant.old) config.now }
    requires members { AreReady (P.state plant.old) config.now (model.members_in (model.session_in ss.old.sessions s.0)) }
    requires running { (P.state plant.old).on server.0 ≡ true }
    requires begins { MayOrder (work_of order.kind) ss.old.sessions s.0 order.n }
    requires room { length (model.members_in (model.session_in ss.old.sessions s.0)) + length (model.members_in (model.session_in ss.old.sessions s.0)) + 2 ≤ journal.old.spare }
    ensures { Ordered (P.state plant.old) (P.state plant.new) config.now journal.old journal.new ss.old.sessions ss.new.sessions (work_of order.kind) s.0 order.n (members_on server.0 (model.members_in (model.session_in ss.old.sessions s.0))) result }
{
    let mut waits = false;
    for at in 0..ss.member_count(s) {
        let m = ss.member_at(s, at).unwrap();
        let wait = order_on(
            plant, config, journal, ss, s, server, &m, order.kind, order.n,
        )?;
        waits |= wait;
    }
    Ok(waits)
}

/// A server, which is on, carries out an order on its members of a session, in the order in which they came, and replies: to a
/// report with what its members show; a seal has to wait where a member's primary has tracks left to send; else all is done.
/// The first hold of an attempt begins it for the session, also where the server stops in that hold and it counts as done.
/// Fails where a member refuses, or where a server stops in a move or goes off at a read; what was done by then stays. In a sound
/// world an order that is delivered leaves the target of a member as it is whose secondary isn't its primary's, as after a
/// takeover. The journal needs room for two events for each of the session's members and two more; a report speaks of at most
/// 64 members.
pub fn carry_out<P: Plant>(
    plant: &mut P,
    config: &Config,
    journal: &mut Journal,
    ss: &mut Sessions,
    s: SessionId,
    server: ServerId,
    order: Order,
) -> Result<Reply, Refusal>
    requires rest { IsAtRest (P.state plant.old) config.now }
    requires fit { RelationsFit (P.state plant.old) config.now }
    requires aside { AsideFits (P.state plant.old) config.now }
    requires members { AreReady (P.state plant.old) config.now (model.members_in (model.session_in ss.old.sessions s.0)) }
    requires running { (P.state plant.old).on server.0 ≡ true }
    requires begins { MayOrder (work_of order.kind) ss.old.sessions s.0 order.n }
    requires few { is_report (work_of order.kind) ≡ true → length (model.members_in (model.session_in ss.old.sessions s.0)) ≤ 64 }
    requires room { length (model.members_in (model.session_in ss.old.sessions s.0)) + length (model.members_in (model.session_in ss.old.sessions s.0)) + 2 ≤ journal.old.spare }
    ensures carried { (r : Rest) → Ends (armed_in (P.state plant.old)) (world_seen (P.state plant.new) config.now (with_sessions ss.new.sessions r) journal.new.events) (refusal_of result) (world_seen (P.state plant.old) config.now (with_sessions ss.old.sessions r) journal.old.events)
        (order_entries (work_of order.kind) s.0 order.n (members_on server.0 (model.members_in (model.session_in ss.old.sessions s.0)))) }
    ensures leads { OnOk result ((r : Rest) → Leads (world_seen (P.state plant.old) config.now (with_sessions ss.old.sessions r) journal.old.events) (order_entries (work_of order.kind) s.0 order.n (members_on server.0 (model.members_in (model.session_in ss.old.sessions s.0))))
        (world_seen (P.state plant.new) config.now (with_sessions ss.new.sessions r) journal.new.events)) }
    ensures fails { OnErr result ((r : Rest) → Fails (armed_in (P.state plant.old)) (world_seen (P.state plant.old) config.now (with_sessions ss.old.sessions r) journal.old.events) (order_entries (work_of order.kind) s.0 order.n (members_on server.0 (model.members_in (model.session_in ss.old.sessions s.0))))
        (world_seen (P.state plant.new) config.now (with_sessions ss.new.sessions r) journal.new.events) (refusal_of result)) }
    ensures leaves { (r : Rest) (j : ℕ) (x : Session) (m : Member) → Sound (world_seen (P.state plant.old) config.now (with_sessions ss.old.sessions r) journal.old.events)
        → Delivers (world_seen (P.state plant.old) config.now (with_sessions ss.old.sessions r) journal.old.events).control j s.0 server.0 (order_of order) (model.members_in (model.session_in ss.old.sessions s.0))
        → In x ss.old.sessions → In m x.members → is_secondary_of m.a.0 (fields_at (world_seen (P.state plant.old) config.now (with_sessions ss.old.sessions r) journal.old.events).control m.b.0) ≡ false
        → IsLeft (world_seen (P.state plant.old) config.now (with_sessions ss.old.sessions r) journal.old.events) (world_seen (P.state plant.new) config.now (with_sessions ss.new.sessions r) journal.new.events) m }
    ensures reply { IfOk result (λ y. (r : Rest) (events : List Event) → reply_of y ≡ reply_after s.0 (work_of order.kind) (members_on server.0 (model.members_in (model.session_in ss.old.sessions s.0))) (world_seen (P.state plant.new) config.now r events).control) }
    ensures count { IfOk result (λ y. count_in y ≡ members_in_reply (reply_of y)) }
    ensures members { model.members_in (model.session_in ss.new.sessions s.0) ≡ model.members_in (model.session_in ss.old.sessions s.0) }
    ensures rest { IsAtRest (P.state plant.new) config.now }
    ensures fit { RelationsFit (P.state plant.new) config.now }
    ensures aside { AsideFits (P.state plant.new) config.now }
    ensures unarmed { (q : ℕ) → (P.state plant.old).read_fuse q ≡ None → (P.state plant.new).read_fuse q ≡ None }
    ensures faults { Counted (is_stop (refusal_of result)) (P.state plant.old).faults (P.state plant.new).faults }
    ensures on { OnOk result ((P.state plant.new).on ≡ (P.state plant.old).on) }
    ensures room { journal.old.spare ≤ journal.new.spare + (length (model.members_in (model.session_in ss.old.sessions s.0)) + length (model.members_in (model.session_in ss.old.sessions s.0)) + 2) }
    ensures spare { length journal.new.events + journal.new.spare ≡ length journal.old.events + journal.old.spare }
{
    if is_report(order.kind) {
        return match settle(plant, config, ss, s, server) {
            Ok(y) => Ok(Reply::Report(y)),
            Err(why) => Err(why),
        };
    }
    match order_each(plant, config, journal, ss, s, server, order) {
        Ok(waits) => Ok(reply_by(waits)),
        Err(why) => Err(why),
    }
}
