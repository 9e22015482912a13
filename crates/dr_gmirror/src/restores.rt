//! What is decided over a session, and what that says of a restore of one of its members' targets.

ghost use Rattle.std.specs.Prelude.{◌≡◌, ℕ, ◌≤◌, ◌==◌, false, length, List, IsSome};
ghost use Rattle.std.specs.List.{find};
ghost use Rattle.dr_config.specs.Table.{StandsFor, place_of};
ghost use Rattle.dr_master.specs.Seen.{shown_in};
ghost use Rattle.dr_model.specs.Decisions.{decision};
ghost use Rattle.dr_model.specs.declared.event.Event.{Event};
ghost use Rattle.dr_model.specs.Plans as plans;
ghost use Rattle.dr_model.specs.SessionEntries.{shown_by_members};
ghost use Rattle.dr_model.specs.Sessions as model;
ghost use Rattle.dr_volume.specs.View.{Rest};
ghost use Rattle.dr_moves.specs.Checks.{OnNone, is_stop};
ghost use Rattle.dr_moves.specs.Here.{world_seen};
ghost use Rattle.dr_incr.specs.Steps.{volume_number};
ghost use Rattle.dr_gmirror.specs.Orders.{AreReady, AreRunning, with_sessions};

use crate::settling::{no_report, note_if};
use dr_config::Config;
use dr_ids::{Decision, Member, Refusal, SessionId, VolumeId};
use dr_master::Report;
use dr_moves::server_of;
use dr_plant::Plant;
use dr_session::Sessions;
use dr_volume::peek_head;

/// What the targets of all members of a session show that count in it, in order, looked at whether or not their servers are on.
fn report_all<P: Plant>(plant: &P, config: &Config, ss: &Sessions, s: SessionId) -> Report
    requires stands { StandsFor config.now (P.state plant.now) }
    requires members { AreReady (P.state plant.now) config.now (model.members_in (model.session_in ss.now.sessions s.0)) }
    requires few { length (model.members_in (model.session_in ss.now.sessions s.0)) ≤ 64 }
    ensures shown { (r : Rest) (events : List Event) → shown_in result ≡ shown_by_members s.0 (model.members_in (model.session_in ss.now.sessions s.0)) (world_seen (P.state plant.now) config.now r events).control }
    ensures count { result.count ≤ 64 }
{
    let mut report = no_report();
    for at in 0..ss.member_count(s) {
        let m = ss.member_at(s, at).unwrap();
        note_if(&mut report, s, &peek_head(plant, config, m.c));
    }
    report
}

/// What recovery would decide over a session, by what its members' targets show. They are looked at whether or not their servers
/// are on. A session has at most 64 members.
pub fn decide_over<P: Plant>(plant: &P, config: &Config, ss: &Sessions, s: SessionId) -> Decision
    requires stands { StandsFor config.now (P.state plant.now) }
    requires members { AreReady (P.state plant.now) config.now (model.members_in (model.session_in ss.now.sessions s.0)) }
    requires few { length (model.members_in (model.session_in ss.now.sessions s.0)) ≤ 64 }
    ensures decides { (r : Rest) (events : List Event) → result ≡ decision (shown_by_members s.0 (model.members_in (model.session_in ss.now.sessions s.0)) (world_seen (P.state plant.now) config.now r events).control) }
{
    report_all(plant, config, ss, s).decision()
}

/// The first secondary of the session's members whose server is off, if there is one.
pub fn secondary_refusal<P: Plant>(
    plant: &P,
    config: &Config,
    ss: &Sessions,
    s: SessionId,
) -> Option<Refusal>
    requires members { AreReady (P.state plant.now) config.now (model.members_in (model.session_in ss.now.sessions s.0)) }
    ensures refusal { (r : Rest) (events : List Event) → result ≡ plans.secondary_refusal (model.members_in (model.session_in ss.now.sessions s.0)) (world_seen (P.state plant.now) config.now r events).control }
    ensures running { OnNone result (AreRunning (P.state plant.now) config.now (model.members_in (model.session_in ss.now.sessions s.0))) }
    ensures calm { is_stop result ≡ false }
{
    for at in 0..ss.member_count(s) {
        let m = ss.member_at(s, at).unwrap();
        let server = server_of(config, m.b);
        if !plant.is_on(server.0) {
            return Some(Refusal::ServerOff { server });
        }
    }
    None
}

/// Why nothing is to be done while the decision isn't that: it is forbidden.
fn forbidden_unless_nothing(decided: Decision) -> Option<Refusal>
    ensures refusal { result ≡ plans.forbidden_unless (plans.leaves_all decided) decided }
    ensures calm { is_stop result ≡ false }
{
    match decided {
        Decision::Nothing(_) => None,
        _ => Some(Refusal::Forbidden { decision: decided }),
    }
}

/// Why a target can't be restored as far as sessions go: it is a member's, and a secondary of that session's members is on a server
/// that is off, or something is still to be done with their targets. None for a volume that is no member's target.
pub fn restore_refusal<P: Plant>(
    plant: &P,
    config: &Config,
    ss: &Sessions,
    t: VolumeId,
) -> Option<Refusal>
    requires stands { StandsFor config.now (P.state plant.now) }
    requires defined { IsSome (place_of config.now t.0) }
    requires members { (s : ℕ) → AreReady (P.state plant.now) config.now (model.members_in (model.session_in ss.now.sessions s)) }
    requires few { (s : ℕ) → length (model.members_in (model.session_in ss.now.sessions s)) ≤ 64 }
    ensures refusal { (r : Rest) (events : List Event) → plans.restore_refusal t.0 (world_seen (P.state plant.now) config.now (with_sessions ss.now.sessions r) events).control ≡ result }
    ensures calm { is_stop result ≡ false }
{
    let head = peek_head(plant, config, t);
    if !head.member {
        return None;
    }
    let s = SessionId(head.session);
    if let Some(why) = secondary_refusal(plant, config, ss, s) {
        return Some(why);
    }
    forbidden_unless_nothing(decide_over(plant, config, ss, s))
}

/// The first of the session's members with that target, if there is one.
pub fn member_with(ss: &Sessions, s: SessionId, t: VolumeId) -> Option<Member>
    ensures { result ≡ find (λ m. m.c.0 == t.0) (model.members_in (model.session_in ss.now.sessions s.0)) }
{
    for at in 0..ss.member_count(s) {
        let m = ss.member_at(s, at).unwrap();
        if m.c.0 == t.0 {
            return Some(m);
        }
    }
    None
}

/// The primary of the member that a restore of t takes out of its session's count, where t is a member's target.
pub fn leaving<P: Plant>(plant: &P, config: &Config, ss: &Sessions, t: VolumeId) -> Option<VolumeId>
    requires stands { StandsFor config.now (P.state plant.now) }
    requires defined { IsSome (place_of config.now t.0) }
    ensures { (r : Rest) (events : List Event) → plans.left_by (world_seen (P.state plant.now) config.now (with_sessions ss.now.sessions r) events).control t.0 ≡ volume_number result }
{
    let head = peek_head(plant, config, t);
    if !head.member {
        return None;
    }
    let m = member_with(ss, SessionId(head.session), t)?;
    Some(m.a)
}
