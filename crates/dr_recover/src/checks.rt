//! Why a target isn't committed or reverted by hand.

ghost use Rattle.std.specs.Prelude.{◌≡◌, ℕ, false, List};
ghost use Rattle.dr_config.specs.Table.{StandsFor};
ghost use Rattle.dr_model.specs.declared.event.Event.{Event};
ghost use Rattle.dr_model.specs.RecoveryPlans as plans;
ghost use Rattle.dr_model.specs.Sessions as model;
ghost use Rattle.dr_volume.specs.View.{Rest};
ghost use Rattle.dr_moves.specs.Checks.{OnNone, is_stop};
ghost use Rattle.dr_moves.specs.Here.{world_seen};
ghost use Rattle.dr_gmirror.specs.Orders.{AreReady, AreRunning};
ghost use Rattle.dr_recover.specs.Outcomes.{lets_by};

use crate::looks::untaken_refusal;
use dr_config::Config;
use dr_gmirror::secondary_refusal;
use dr_ids::{Decision, Refusal, SessionId};
use dr_plant::Plant;
use dr_session::Sessions;

/// Whether a decision lets revertible targets be committed.
fn lets_commit(decided: Decision) -> bool
    ensures { result ≡ plans.lets_commit decided }
{
    match decided {
        Decision::CommitRest(_) => true,
        _ => false,
    }
}

/// Whether it lets them be reverted.
fn lets_revert(decided: Decision) -> bool
    ensures { result ≡ plans.lets_revert decided }
{
    match decided {
        Decision::RevertAll(_) => true,
        Decision::RevertSome(_, _) => true,
        _ => false,
    }
}

/// Whether it lets them be committed, or else reverted.
fn lets(commit: bool, decided: Decision) -> bool
    ensures { result ≡ lets_by commit decided }
{
    if commit {
        lets_commit(decided)
    } else {
        lets_revert(decided)
    }
}

/// Why something isn't done that the decision doesn't let be done.
fn forbidden_unless(may: bool, decided: Decision) -> Option<Refusal>
    ensures refusal { result ≡ plans.forbidden_unless may decided }
    ensures calm { is_stop result ≡ false }
{
    if may {
        return None;
    }
    Some(Refusal::Forbidden { decision: decided })
}

/// Why a target of a session's members isn't committed, or else reverted, by hand: a secondary's server is off, or else a secondary
/// isn't taken over, or else what was decided forbids it.
pub(crate) fn settle_refusal<P: Plant>(
    plant: &P,
    config: &Config,
    ss: &Sessions,
    s: SessionId,
    commit: bool,
    decided: Decision,
) -> Option<Refusal>
    requires stands { StandsFor config.now (P.state plant.now) }
    requires members { AreReady (P.state plant.now) config.now (model.members_in (model.session_in ss.now.sessions s.0)) }
    ensures refusal { (r : Rest) (events : List Event) → result ≡ plans.settle_refusal (lets_by commit) decided (model.members_in (model.session_in ss.now.sessions s.0)) (world_seen (P.state plant.now) config.now r events).control }
    ensures running { OnNone result (AreRunning (P.state plant.now) config.now (model.members_in (model.session_in ss.now.sessions s.0))) }
    ensures calm { is_stop result ≡ false }
{
    if let Some(why) = secondary_refusal(plant, config, ss, s) {
        return Some(why);
    }
    if let Some(why) = untaken_refusal(plant, config, ss, s) {
        return Some(why);
    }
    forbidden_unless(lets(commit, decided), decided)
}
