//! One target is committed or reverted by hand.

ghost use Rattle.std.specs.Prelude.{◌≡◌, ℕ, ◌≤◌, ◌+◌, false, length, None, IsSome, OnOk, OnErr};
ghost use Rattle.dr_logic.specs.Counts.{Counted};
ghost use Rattle.dr_config.specs.Table.{place_of};
ghost use Rattle.dr_model.specs.RecoveryPlans as plans;
ghost use Rattle.dr_model.specs.Sessions as model;
ghost use Rattle.dr_volume.specs.View.{Rest};
ghost use Rattle.dr_moves.specs.Checks.{is_stop};
ghost use Rattle.dr_moves.specs.Fit.{RelationsFit};
ghost use Rattle.dr_moves.specs.Here.{world_seen, refusal_of, armed_in, IsAtRest};
ghost use Rattle.dr_moves.specs.Aside.{AsideFits};
ghost use Rattle.dr_gmirror.specs.Exchange.{PlanEnds};
ghost use Rattle.dr_gmirror.specs.Orders.{AreReady, with_sessions};
ghost use Rattle.dr_recover.specs.Outcomes.{act_said, lets_by};

use crate::checks::settle_refusal;
use crate::looks::revertible_target;
use crate::settling::settle_next;
use dr_config::Config;
use dr_flash::relation_state;
use dr_gmirror::{decide_over, member_with};
use dr_ids::{Refusal, SessionId, VolumeId};
use dr_model::Journal;
use dr_plant::Plant;
use dr_revert::turn_target;
use dr_session::Sessions;
use dr_volume::peek_head;

/// Commits, or else reverts, the flash on the revertible target of a volume, where that is decided now over its session. Refused
/// where the volume has no revertible target, or that is no member's; or else where the server of a secondary of the session's
/// members is off, or else where a secondary isn't taken over; or else where something else is decided. Then nothing has
/// changed. Fails too where the server stops in the move or goes off at a read. A session has at most 64 members. The journal
/// needs room for two events.
pub fn act<P: Plant>(
    plant: &mut P,
    config: &Config,
    journal: &mut Journal,
    ss: &Sessions,
    source: VolumeId,
    commit: bool,
) -> Result<(), Refusal>
    requires rest { IsAtRest (P.state plant.old) config.now }
    requires fit { RelationsFit (P.state plant.old) config.now }
    requires aside { AsideFits (P.state plant.old) config.now }
    requires defined { IsSome (place_of config.now source.0) }
    requires members { (s : ℕ) → AreReady (P.state plant.old) config.now (model.members_in (model.session_in ss.now.sessions s)) }
    requires few { (s : ℕ) → length (model.members_in (model.session_in ss.now.sessions s)) ≤ 64 }
    requires room { 2 ≤ journal.old.spare }
    ensures carried { (r : Rest) → PlanEnds (armed_in (P.state plant.old)) (world_seen (P.state plant.old) config.now (with_sessions ss.now.sessions r) journal.old.events)
        (plans.settle_target (world_seen (P.state plant.old) config.now (with_sessions ss.now.sessions r) journal.old.events).control (lets_by commit) source.0 (plans.revertible_target (world_seen (P.state plant.old) config.now (with_sessions ss.now.sessions r) journal.old.events).control source.0))
        (world_seen (P.state plant.new) config.now (with_sessions ss.now.sessions r) journal.new.events) (act_said result) }
    ensures unchanged { is_stop (refusal_of result) ≡ false → OnErr result ((P.state plant.new ≡ P.state plant.old) × (journal.new ≡ journal.old)) }
    ensures rest { IsAtRest (P.state plant.new) config.now }
    ensures fit { RelationsFit (P.state plant.new) config.now }
    ensures aside { AsideFits (P.state plant.new) config.now }
    ensures unarmed { (q : ℕ) → (P.state plant.old).read_fuse q ≡ None → (P.state plant.new).read_fuse q ≡ None }
    ensures faults { Counted (is_stop (refusal_of result)) (P.state plant.old).faults (P.state plant.new).faults }
    ensures on { OnOk result ((P.state plant.new).on ≡ (P.state plant.old).on) }
    ensures room { journal.old.spare ≤ journal.new.spare + 2 }
    ensures spare { length journal.new.events + journal.new.spare ≡ length journal.old.events + journal.old.spare }
{
    let Some(t) = revertible_target(plant, config, source) else {
        return Err(relation_state(plant, config, source));
    };
    let s = SessionId(peek_head(plant, config, t).session);
    let Some(m) = member_with(ss, s, t) else {
        return Err(relation_state(plant, config, source));
    };
    let decided = decide_over(plant, config, ss, s);
    if let Some(why) = settle_refusal(plant, config, ss, s, commit, decided) {
        return Err(why);
    }
    let next = settle_next(plant, config, s, decided, &m);
    turn_target(plant, config, journal, m.c, &next)
}
