//! A member leaves its session.

ghost use Rattle.std.specs.Prelude.{◌≡◌, ℕ, ◌≤◌, ◌+◌, true, false, length, None, Some, List, OnOk, OnErr, IfOk};
ghost use Rattle.std.specs.Result.{result_err};
ghost use Rattle.dr_logic.specs.Counts.{Counted};
ghost use Rattle.dr_model.specs.declared.event.Event.{Event};
ghost use Rattle.dr_model.specs.ReadStops.{Ends};
ghost use Rattle.dr_model.specs.Sessions as model;
ghost use Rattle.dr_volume.specs.View.{Rest, volume_seen};
ghost use Rattle.dr_moves.specs.Checks.{is_stop};
ghost use Rattle.dr_moves.specs.Fit.{RelationsFit};
ghost use Rattle.dr_moves.specs.Here.{world_seen, refusal_of, armed_in, IsAtRest};
ghost use Rattle.dr_admin.specs.Adding.{unless_stop};
ghost use Rattle.dr_admin.specs.Removing.{member_in, TargetDefined, expel_refusal, entries_without, sessions_without, ExpelsSo};

use crate::members::member_of;
use dr_config::Config;
use dr_coord::leave;
use dr_ids::{Member, Refusal, SessionId, VolumeId};
use dr_model::Journal;
use dr_moves::server_of;
use dr_plant::Plant;
use dr_session::Sessions;

/// The member that leaves. Refused where a is no member of the session, where its master isn't Idle, and where the server of
/// the member's target is off.
fn leaving_member<P: Plant>(
    plant: &P,
    config: &Config,
    ss: &Sessions,
    a: VolumeId,
    s: SessionId,
) -> Result<Member, Refusal>
    requires target { TargetDefined config.now (member_in a.0 (model.session_in ss.now.sessions s.0)) }
    ensures refused { (r : Rest) (events : List Event) → result_err result ≡ expel_refusal (world_seen (P.state plant.now) config.now r events).control s.0 (model.session_in ss.now.sessions s.0) (member_in a.0 (model.session_in ss.now.sessions s.0)) }
    ensures member { IfOk result (λ m. member_in a.0 (model.session_in ss.now.sessions s.0) ≡ Some m) }
    ensures running { IfOk result (λ m. (P.state plant.now).on (volume_seen (P.state plant.now) config.now m.c.0).server ≡ true) }
    ensures free { IfOk result (λ m. model.remove_refusal (model.session_in ss.now.sessions s.0) s.0 m.a.0 ≡ None) }
    ensures calm { is_stop (refusal_of result) ≡ false }
{
    let Some(m) = member_of(ss, s, a) else {
        return Err(Refusal::NotInSession { session: s });
    };
    if let Some(why) = ss.busy(s) {
        return Err(why);
    }
    let server = server_of(config, m.c);
    if !plant.is_on(server.0) {
        return Err(Refusal::ServerOff { server });
    }
    Ok(m)
}

/// Takes out a member that the session has and lets go.
fn take_out(ss: &mut Sessions, s: SessionId, a: VolumeId)
    requires free { model.remove_refusal (model.session_in ss.old.sessions s.0) s.0 a.0 ≡ None }
    ensures { ss.new.sessions ≡ model.changed s.0 (model.without_member a.0) ss.old.sessions }
{
    match ss.remove_member(s, a) {
        Ok(()) | Err(_) => (),
    }
}

/// The member of session s whose primary is a leaves it: first its target is a member's no more, of which the journal is told,
/// and then the session's list loses it. Refused, in this order, where a is no member of the session; where the session's
/// master isn't Idle; and where the server of the member's target is off. Then nothing has changed. Fails too where that server
/// stops in the move or goes off at a read; then the sessions are as they were. The journal needs room for two events.
pub fn expel<P: Plant>(
    plant: &mut P,
    config: &Config,
    journal: &mut Journal,
    ss: &mut Sessions,
    a: VolumeId,
    s: SessionId,
) -> Result<(), Refusal>
    requires rest { IsAtRest (P.state plant.old) config.now }
    requires fit { RelationsFit (P.state plant.old) config.now }
    requires target { TargetDefined config.now (member_in a.0 (model.session_in ss.old.sessions s.0)) }
    requires room { 2 ≤ journal.old.spare }
    ensures plan { (r : Rest) → ExpelsSo (world_seen (P.state plant.old) config.now r journal.old.events).control s.0 (model.session_in ss.old.sessions s.0) a.0 }
    ensures refused { (r : Rest) → unless_stop (refusal_of result) ≡ expel_refusal (world_seen (P.state plant.old) config.now r journal.old.events).control s.0 (model.session_in ss.old.sessions s.0) (member_in a.0 (model.session_in ss.old.sessions s.0)) }
    ensures carried { OnOk result ((r : Rest) → Ends (armed_in (P.state plant.old)) (world_seen (P.state plant.new) config.now r journal.new.events) None (world_seen (P.state plant.old) config.now r journal.old.events) (entries_without s.0 (member_in a.0 (model.session_in ss.old.sessions s.0)))) }
    ensures stopped { is_stop (refusal_of result) ≡ true → (r : Rest) → Ends (armed_in (P.state plant.old)) (world_seen (P.state plant.new) config.now r journal.new.events) (refusal_of result) (world_seen (P.state plant.old) config.now r journal.old.events) (entries_without s.0 (member_in a.0 (model.session_in ss.old.sessions s.0))) }
    ensures removed { OnOk result (ss.new.sessions ≡ sessions_without s.0 (member_in a.0 (model.session_in ss.old.sessions s.0)) ss.old.sessions) }
    ensures same { OnErr result (ss.new.sessions ≡ ss.old.sessions) }
    ensures unchanged { is_stop (refusal_of result) ≡ false → OnErr result ((P.state plant.new ≡ P.state plant.old) × (journal.new ≡ journal.old)) }
    ensures rest { IsAtRest (P.state plant.new) config.now }
    ensures fit { RelationsFit (P.state plant.new) config.now }
    ensures unarmed { (q : ℕ) → (P.state plant.old).read_fuse q ≡ None → (P.state plant.new).read_fuse q ≡ None }
    ensures faults { Counted (is_stop (refusal_of result)) (P.state plant.old).faults (P.state plant.new).faults }
    ensures on { OnOk result ((P.state plant.new).on ≡ (P.state plant.old).on) }
    ensures room { journal.old.spare ≤ journal.new.spare + 2 }
    ensures room_left { OnOk result (journal.old.spare ≡ journal.new.spare + 1) }
    ensures spare { length journal.new.events + journal.new.spare ≡ length journal.old.events + journal.old.spare }
{
    let m = match leaving_member(plant, config, ss, a, s) {
        Ok(m) => m,
        Err(why) => return Err(why),
    };
    match leave(plant, config, journal, m.c, m.a, s) {
        Ok(()) => {
            take_out(ss, s, m.a);
            Ok(())
        }
        Err(why) => Err(why),
    }
}
