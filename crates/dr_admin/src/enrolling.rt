//! A primary becomes a member of a session.

ghost use Rattle.std.specs.Prelude.{◌≡◌, ℕ, ◌≤◌, ◌+◌, true, false, length, None, IsSome, OnOk, OnErr};
ghost use Rattle.dr_logic.specs.Counts.{Counted};
ghost use Rattle.dr_config.specs.Table.{place_of};
ghost use Rattle.dr_model.specs.Layout.{is_part};
ghost use Rattle.dr_model.specs.ReadStops.{Ends};
ghost use Rattle.dr_model.specs.Sessions as model;
ghost use Rattle.dr_volume.specs.View.{Rest, volume_seen};
ghost use Rattle.dr_moves.specs.Checks.{is_stop};
ghost use Rattle.dr_moves.specs.Fit.{RelationsFit};
ghost use Rattle.dr_moves.specs.Here.{world_seen, armed_in, IsAtRest};
ghost use Rattle.dr_session.specs.Kept.{refusal_of};
ghost use Rattle.dr_admin.specs.Adding.{member_planned, enrol_refusal, entries_planned, sessions_planned, unless_stop, AddsSo};

use crate::checks::new_member;
use crate::members::take_in;
use crate::numbers::first_number;
use crate::raising::raise_both;
use dr_config::Config;
use dr_ids::{Fault, Lss, SessionId, VolumeId};
use dr_model::Journal;
use dr_plant::Plant;
use dr_session::Sessions;

/// Primary a, which is defined, becomes a member of session s, which is defined, with its secondary b and the only target of b
/// whose relationship is recorded and inhibited. From then on attempts count from n, the greatest number that the session, a, b
/// and the target have seen: the attempt of a and the floor of the target are raised to n where they are lower, and then the
/// session's last number is n, and the member stands last in its list. Refused, in this order, where logical subsystem l isn't
/// one of the session's; where a is a member of it; where it is one of another session; where the session's master isn't Idle;
/// where the server of a is off; where a is no Global Copy primary; where b can't be reached from a, for want of a path, since
/// its server is off, or since the link is down; where b hasn't the part for a; where not just one relationship of b is recorded
/// and inhibited, or that one is revertible or reversing; and where one of the three volumes has a place in a member of some
/// session. Then nothing has changed, nor where there is no memory. Fails too where a server stops in a move or goes off at a
/// read; what was done by then stays, and the sessions are as they were. Nothing is told but a stop. The journal needs room for
/// an event.
pub fn enrol<P: Plant>(
    plant: &mut P,
    config: &Config,
    journal: &mut Journal,
    ss: &mut Sessions,
    l: Lss,
    a: VolumeId,
    s: SessionId,
) -> Result<(), Fault>
    requires rest { IsAtRest (P.state plant.old) config.now }
    requires fit { RelationsFit (P.state plant.old) config.now }
    requires defined { IsSome (place_of config.now a.0) }
    requires partner { is_part (volume_seen (P.state plant.old) config.now a.0).fields.primary ≡ true → IsSome (place_of config.now (volume_seen (P.state plant.old) config.now a.0).fields.primary_partner) }
    requires session { IsSome (model.session_in ss.old.sessions s.0) }
    requires room { 1 ≤ journal.old.spare }
    ensures plan { (r : Rest) → AddsSo (world_seen (P.state plant.old) config.now r journal.old.events).control s.0 (model.session_in ss.old.sessions s.0) l.0 a.0 }
    ensures refused { (r : Rest) → r.sessions ≡ ss.old.sessions → unless_stop (refusal_of result) ≡ enrol_refusal (world_seen (P.state plant.old) config.now r journal.old.events).control (model.session_in ss.old.sessions s.0) l.0 a.0 }
    ensures carried { OnOk result ((r : Rest) → Ends (armed_in (P.state plant.old)) (world_seen (P.state plant.new) config.now r journal.new.events) None (world_seen (P.state plant.old) config.now r journal.old.events)
        (entries_planned (world_seen (P.state plant.old) config.now r journal.old.events).control (model.session_in ss.old.sessions s.0) (member_planned (world_seen (P.state plant.old) config.now r journal.old.events).control a.0))) }
    ensures stopped { is_stop (refusal_of result) ≡ true → (r : Rest) → Ends (armed_in (P.state plant.old)) (world_seen (P.state plant.new) config.now r journal.new.events) (refusal_of result) (world_seen (P.state plant.old) config.now r journal.old.events)
        (entries_planned (world_seen (P.state plant.old) config.now r journal.old.events).control (model.session_in ss.old.sessions s.0) (member_planned (world_seen (P.state plant.old) config.now r journal.old.events).control a.0)) }
    ensures added { OnOk result ((r : Rest) → ss.new.sessions ≡ sessions_planned (world_seen (P.state plant.old) config.now r journal.old.events).control s.0 (model.session_in ss.old.sessions s.0) (member_planned (world_seen (P.state plant.old) config.now r journal.old.events).control a.0) ss.old.sessions) }
    ensures same { OnErr result (ss.new.sessions ≡ ss.old.sessions) }
    ensures unchanged { is_stop (refusal_of result) ≡ false → OnErr result ((P.state plant.new ≡ P.state plant.old) × (journal.new ≡ journal.old)) }
    ensures rest { IsAtRest (P.state plant.new) config.now }
    ensures fit { RelationsFit (P.state plant.new) config.now }
    ensures unarmed { (q : ℕ) → (P.state plant.old).read_fuse q ≡ None → (P.state plant.new).read_fuse q ≡ None }
    ensures faults { Counted (is_stop (refusal_of result)) (P.state plant.old).faults (P.state plant.new).faults }
    ensures on { OnOk result ((P.state plant.new).on ≡ (P.state plant.old).on) }
    ensures room { journal.old.spare ≤ journal.new.spare + 1 }
    ensures room_left { OnOk result (journal.old.spare ≡ journal.new.spare) }
    ensures spare { length journal.new.events + journal.new.spare ≡ length journal.old.events + journal.old.spare }
{
    let m = match new_member(plant, config, ss, l, a, s) {
        Ok(m) => m,
        Err(why) => return Err(Fault::Refused(why)),
    };
    if ss.reserve().is_err() {
        return Err(Fault::NoMemory);
    }
    let n = first_number(plant, config, ss, s, &m);
    match raise_both(plant, config, journal, &m, n) {
        Ok(()) => {
            take_in(ss, s, m, n);
            Ok(())
        }
        Err(why) => Err(Fault::Refused(why)),
    }
}
