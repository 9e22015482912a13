//! The recovery of a session.

ghost use Rattle.std.specs.Prelude.{◌≡◌, ℕ, ◌≤◌, ◌+◌, ◌++◌, [], ◌∷◌, false, length, None, Some, IfOk, OnOk, OnErr};
ghost use Rattle.dr_logic.specs.Counts.{Counted};
ghost use Rattle.dr_ids.specs.declared.refusal.Refusal.{Refusal};
ghost use Rattle.dr_model.specs.declared.event.Event.{Event};
ghost use Rattle.dr_model.specs.ReadStops.{Ends};
ghost use Rattle.dr_model.specs.RecoveryPlans as plans;
ghost use Rattle.dr_model.specs.Laws.{Sound};
ghost use Rattle.dr_model.specs.Sessions as model;
ghost use Rattle.dr_model.specs.Sessions.{Session};
ghost use Rattle.dr_volume.specs.View.{Rest};
ghost use Rattle.dr_moves.specs.Checks.{is_stop};
ghost use Rattle.dr_moves.specs.Fit.{RelationsFit};
ghost use Rattle.dr_moves.specs.Here.{world_seen, refusal_of, armed_in, IsAtRest};
ghost use Rattle.dr_moves.specs.Aside.{AsideFits};
ghost use Rattle.dr_gmirror.specs.Exchange.{PlanEnds};
ghost use Rattle.dr_gmirror.specs.Orders.{AreReady, with_sessions};
ghost use Rattle.dr_recover.specs.Outcomes.{recover_behind, recovery_said, RecoversAlike, IsRecovered};

use crate::steps::carry_all;
use dr_config::Config;
use dr_gmirror::{decide_over, secondary_refusal};
use dr_ids::{Decision, Refusal, SessionId};
use dr_model::Journal;
use dr_moves::{Act, Nothing, perform};
use dr_plant::Plant;
use dr_session::Sessions;

/// How a recovery ended: the number that all targets show that count then, none where there is no such number, and what was
/// decided before anything was done.
#[derive(Clone, Copy)]
pub struct Recovered {
    pub group: Option<u32>,
    pub decision: Decision,
}

/// The number that all targets show that count, where nothing is to be done with them.
fn group_of(decided: Decision) -> Option<u32>
    ensures { result ≡ plans.group_of decided }
{
    match decided {
        Decision::Nothing(n) => Some(n),
        _ => None,
    }
}

/// The journal is told that the recovery of a session ended with that group, 0 for none.
fn end_recovery(journal: &mut Journal, s: SessionId, group: Option<u32>)
    requires room { 1 ≤ journal.old.spare }
    ensures events { journal.new.events ≡ journal.old.events ++ Event.Recovered s.0 (plans.group_number group) ∷ [] }
    ensures room { journal.old.spare ≡ journal.new.spare + 1 }
    ensures spare { length journal.new.events + journal.new.spare ≡ length journal.old.events + journal.old.spare }
{
    let n = group.unwrap_or(0);
    perform(journal, &mut Nothing, &Act::EndRecovery { s, n });
}

/// Recovers a session: what is to be done with its members' targets is decided by what they show; each secondary is taken
/// over, in order of members, and only then is each target that is revertible from the attempt that was decided on committed
/// or reverted, in order of members. At the end the journal is told the number that all targets show that count then. Refused
/// where the server of a secondary is off, which the first such member says; then nothing has changed. Fails too where a
/// server stops in a move or goes off at a read; what was done by then stays, and the call may be repeated: in a sound world
/// another recovery then gives each session the same group and images as this one would have. The session has at most 64
/// members. The journal needs room for two events for each member and one more.
pub fn recover<P: Plant>(
    plant: &mut P,
    config: &Config,
    journal: &mut Journal,
    ss: &Sessions,
    s: SessionId,
) -> Result<Recovered, Refusal>
    requires rest { IsAtRest (P.state plant.old) config.now }
    requires fit { RelationsFit (P.state plant.old) config.now }
    requires aside { AsideFits (P.state plant.old) config.now }
    requires members { AreReady (P.state plant.old) config.now (model.members_in (model.session_in ss.now.sessions s.0)) }
    requires few { length (model.members_in (model.session_in ss.now.sessions s.0)) ≤ 64 }
    requires room { length (model.members_in (model.session_in ss.now.sessions s.0)) + length (model.members_in (model.session_in ss.now.sessions s.0)) + 1 ≤ journal.old.spare }
    ensures carried { (r : Rest) → PlanEnds (armed_in (P.state plant.old)) (world_seen (P.state plant.old) config.now (with_sessions ss.now.sessions r) journal.old.events)
        (recover_behind (world_seen (P.state plant.old) config.now (with_sessions ss.now.sessions r) journal.old.events).control s.0 (model.members_in (model.session_in ss.now.sessions s.0))) (world_seen (P.state plant.new) config.now (with_sessions ss.now.sessions r) journal.new.events) (recovery_said result) }
    ensures refused { (r : Rest) (why : Refusal) → plans.secondary_refusal (model.members_in (model.session_in ss.now.sessions s.0)) (world_seen (P.state plant.old) config.now (with_sessions ss.now.sessions r) journal.old.events).control ≡ Some why → (refusal_of result ≡ Some why) × (P.state plant.new ≡ P.state plant.old) × (journal.new ≡ journal.old) }
    ensures ends { (r : Rest) → plans.secondary_refusal (model.members_in (model.session_in ss.now.sessions s.0)) (world_seen (P.state plant.old) config.now (with_sessions ss.now.sessions r) journal.old.events).control ≡ None
        → Ends (armed_in (P.state plant.old)) (world_seen (P.state plant.new) config.now (with_sessions ss.now.sessions r) journal.new.events) (refusal_of result) (world_seen (P.state plant.old) config.now (with_sessions ss.now.sessions r) journal.old.events) (plans.recover_entries s.0 (plans.decided_in s.0 (world_seen (P.state plant.old) config.now (with_sessions ss.now.sessions r) journal.old.events).control) (model.members_in (model.session_in ss.now.sessions s.0))) }
    ensures decision { IfOk result (λ x. (r : Rest) → x.decision ≡ plans.decided_in s.0 (world_seen (P.state plant.old) config.now (with_sessions ss.now.sessions r) journal.old.events).control) }
    ensures group { IfOk result (λ x. (r : Rest) → x.group ≡ plans.group_of (plans.decided_in s.0 (world_seen (P.state plant.new) config.now (with_sessions ss.now.sessions r) journal.new.events).control)) }
    ensures keeps { (r : Rest) (x : Session) → model.session_in ss.now.sessions s.0 ≡ Some x → Sound (world_seen (P.state plant.old) config.now (with_sessions ss.now.sessions r) journal.old.events)
        → RecoversAlike (world_seen (P.state plant.old) config.now (with_sessions ss.now.sessions r) journal.old.events) (world_seen (P.state plant.new) config.now (with_sessions ss.now.sessions r) journal.new.events) }
    ensures recovers { IfOk result (λ y. (r : Rest) (x : Session) → model.session_in ss.now.sessions s.0 ≡ Some x → Sound (world_seen (P.state plant.old) config.now (with_sessions ss.now.sessions r) journal.old.events)
        → IsRecovered (world_seen (P.state plant.old) config.now (with_sessions ss.now.sessions r) journal.old.events) (world_seen (P.state plant.new) config.now (with_sessions ss.now.sessions r) journal.new.events) s.0 y) }
    ensures unchanged { is_stop (refusal_of result) ≡ false → OnErr result ((P.state plant.new ≡ P.state plant.old) × (journal.new ≡ journal.old)) }
    ensures rest { IsAtRest (P.state plant.new) config.now }
    ensures fit { RelationsFit (P.state plant.new) config.now }
    ensures aside { AsideFits (P.state plant.new) config.now }
    ensures unarmed { (q : ℕ) → (P.state plant.old).read_fuse q ≡ None → (P.state plant.new).read_fuse q ≡ None }
    ensures faults { Counted (is_stop (refusal_of result)) (P.state plant.old).faults (P.state plant.new).faults }
    ensures on { OnOk result ((P.state plant.new).on ≡ (P.state plant.old).on) }
    ensures room { journal.old.spare ≤ journal.new.spare + (length (model.members_in (model.session_in ss.now.sessions s.0)) + length (model.members_in (model.session_in ss.now.sessions s.0)) + 1) }
    ensures spare { length journal.new.events + journal.new.spare ≡ length journal.old.events + journal.old.spare }
{
    if let Some(why) = secondary_refusal(plant, config, ss, s) {
        return Err(why);
    }
    let decision = decide_over(plant, config, ss, s);
    carry_all(plant, config, journal, ss, s, decision)?;
    let group = group_of(decide_over(plant, config, ss, s));
    end_recovery(journal, s, group);
    Ok(Recovered { group, decision })
}
