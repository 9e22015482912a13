//! Why a volume can't become a member.

ghost use Rattle.std.specs.Prelude.{◌≡◌, true, false, None, Some, List, IsSome, IfOk};
ghost use Rattle.std.specs.List.{find};
ghost use Rattle.std.specs.Option.{option_or};
ghost use Rattle.std.specs.Result.{result_err};
ghost use Rattle.dr_config.specs.Table.{place_of};
ghost use Rattle.dr_model.specs.declared.event.Event.{Event};
ghost use Rattle.dr_model.specs.Layout.{is_part};
ghost use Rattle.dr_model.specs.Sessions as model;
ghost use Rattle.dr_volume.specs.View.{Rest, volume_seen};
ghost use Rattle.dr_moves.specs.Checks.{is_stop};
ghost use Rattle.dr_moves.specs.Fit.{RelationsFit};
ghost use Rattle.dr_moves.specs.Here.{world_seen, refusal_of, IsAtRest};
ghost use Rattle.dr_admin.specs.Adding.{outside_of, taken_in, member_planned, placed_in, enrol_refusal};
ghost use Rattle.dr_admin.specs.Targets.{IsTargetReady};

use crate::members::member_of;
use crate::pairing::pair_member;
use dr_config::Config;
use dr_ids::{Kind, Lss, Member, Refusal, SessionId, VolumeId};
use dr_plant::Plant;
use dr_session::Sessions;

/// Why a logical subsystem has no member in a session: it isn't one of the session's.
fn outside_refusal(ss: &Sessions, s: SessionId, l: Lss) -> Option<Refusal>
    requires session { IsSome (model.session_in ss.now.sessions s.0) }
    ensures refusal { result ≡ outside_of (model.session_in ss.now.sessions s.0) l.0 }
    ensures calm { is_stop result ≡ false }
{
    if ss.has_lss(s, l) {
        return None;
    }
    Some(Refusal::NotInSession { session: s })
}

/// Why a can't become a member of any session beside those that it is in: it is a member of one.
fn elsewhere_refusal(ss: &Sessions, a: VolumeId) -> Option<Refusal>
    ensures refusal { result ≡ model.in_session (find (model.is_member a.0) ss.now.sessions) }
    ensures calm { is_stop result ≡ false }
{
    if let Some(session) = ss.session_of(a) {
        return Some(Refusal::InSession { session });
    }
    None
}

/// Why a can't become a member of a session of which it is none: it is one of another session, or the session's master isn't
/// Idle.
fn other_refusal(ss: &Sessions, s: SessionId, a: VolumeId) -> Option<Refusal>
    ensures refusal { result ≡ option_or (model.in_session (find (model.is_member a.0) ss.now.sessions)) (model.busy (model.mirror_in (model.session_in ss.now.sessions s.0))) }
    ensures calm { is_stop result ≡ false }
{
    if let Some(why) = elsewhere_refusal(ss, a) {
        return Some(why);
    }
    ss.busy(s)
}

/// Why a can't become a member of a session, as far as the sessions say: it is one of the session already, or of another
/// one, or the session's master isn't Idle.
fn taken_refusal(ss: &Sessions, s: SessionId, a: VolumeId) -> Option<Refusal>
    requires session { IsSome (model.session_in ss.now.sessions s.0) }
    ensures refusal { result ≡ taken_in ss.now.sessions (model.session_in ss.now.sessions s.0) a.0 }
    ensures calm { is_stop result ≡ false }
{
    if let Some(_) = member_of(ss, s, a) {
        return Some(Refusal::Duplicate { kind: Kind::Volume });
    }
    other_refusal(ss, s, a)
}

/// Both of these reasons.
fn session_refusal(ss: &Sessions, s: SessionId, l: Lss, a: VolumeId) -> Option<Refusal>
    requires session { IsSome (model.session_in ss.now.sessions s.0) }
    ensures refusal { result ≡ option_or (outside_of (model.session_in ss.now.sessions s.0) l.0) (taken_in ss.now.sessions (model.session_in ss.now.sessions s.0) a.0) }
    ensures calm { is_stop result ≡ false }
{
    if let Some(why) = outside_refusal(ss, s, l) {
        return Some(why);
    }
    taken_refusal(ss, s, a)
}

/// Why a member can't be added beside those that there are: one of its volumes has a place.
fn place_refusal(ss: &Sessions, m: &Member) -> Option<Refusal>
    ensures refusal { result ≡ placed_in ss.now.sessions (Some m.now) }
    ensures calm { is_stop result ≡ false }
{
    if let Some(session) = ss.session_with_place(m) {
        return Some(Refusal::InSession { session });
    }
    None
}

/// The member that a would be of a session. Refused for all reasons for which it can't become one, in order.
pub(crate) fn new_member<P: Plant>(
    plant: &P,
    config: &Config,
    ss: &Sessions,
    l: Lss,
    a: VolumeId,
    s: SessionId,
) -> Result<Member, Refusal>
    requires rest { IsAtRest (P.state plant.now) config.now }
    requires fit { RelationsFit (P.state plant.now) config.now }
    requires defined { IsSome (place_of config.now a.0) }
    requires partner { is_part (volume_seen (P.state plant.now) config.now a.0).fields.primary ≡ true → IsSome (place_of config.now (volume_seen (P.state plant.now) config.now a.0).fields.primary_partner) }
    requires session { IsSome (model.session_in ss.now.sessions s.0) }
    ensures refused { (r : Rest) (events : List Event) → r.sessions ≡ ss.now.sessions → result_err result ≡ enrol_refusal (world_seen (P.state plant.now) config.now r events).control (model.session_in ss.now.sessions s.0) l.0 a.0 }
    ensures member { IfOk result (λ m. (r : Rest) (events : List Event) → member_planned (world_seen (P.state plant.now) config.now r events).control a.0 ≡ Some m) }
    ensures ready { IfOk result (λ m. IsTargetReady (P.state plant.now) config.now m) }
    ensures free { IfOk result (λ m. model.add_refusal (model.session_in ss.now.sessions s.0) m ss.now.sessions ≡ None) }
    ensures calm { is_stop (refusal_of result) ≡ false }
{
    if let Some(why) = session_refusal(ss, s, l, a) {
        return Err(why);
    }
    match pair_member(plant, config, a) {
        Ok(m) => match place_refusal(ss, &m) {
            Some(why) => Err(why),
            None => Ok(m),
        },
        Err(why) => Err(why),
    }
}
