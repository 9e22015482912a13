//! What a commit or a revert by hand looks at.

ghost use Rattle.std.specs.Prelude.{◌≡◌, ℕ, ◌&&◌, false, List, IsSome, IfSome};
ghost use Rattle.dr_config.specs.Table.{StandsFor, place_of};
ghost use Rattle.dr_model.specs.declared.event.Event.{Event};
ghost use Rattle.dr_model.specs.RecoveryPlans as plans;
ghost use Rattle.dr_model.specs.Sessions as model;
ghost use Rattle.dr_volume.specs.View.{Rest};
ghost use Rattle.dr_moves.specs.Checks.{is_stop};
ghost use Rattle.dr_flash.specs.Heads.{targets_by};
ghost use Rattle.dr_moves.specs.Here.{world_seen};
ghost use Rattle.dr_incr.specs.Steps.{volume_number};
ghost use Rattle.dr_gmirror.specs.Orders.{AreReady};

use dr_config::Config;
use dr_ids::{Refusal, SessionId, VolumeId};
use dr_moves::pair_state;
use dr_plant::Plant;
use dr_session::Sessions;
use dr_volume::{Head, peek_head, peek_head_at};

/// Whether a volume with this head is a revertible target of b.
fn is_revertible_target(f: &Head, b: VolumeId) -> bool
    ensures { result ≡ (targets_by b.0 f.now && f.now.revertible) }
{
    f.related && f.source.0 == b.0 && f.revertible
}

/// The revertible target of a volume, if it has one: the first of them in order of definition. It is looked at whether or not its
/// server is on.
pub(crate) fn revertible_target<P: Plant>(
    plant: &P,
    config: &Config,
    b: VolumeId,
) -> Option<VolumeId>
    requires stands { StandsFor config.now (P.state plant.now) }
    ensures target { (r : Rest) (events : List Event) → volume_number result ≡ plans.revertible_target (world_seen (P.state plant.now) config.now r events).control b.0 }
    ensures defined { IfSome result (λ t. IsSome (place_of config.now t.0)) }
{
    for place in 0..config.volumes() {
        let u = config.volume_at(place).unwrap();
        if is_revertible_target(&peek_head_at(plant, config, place), b) {
            return Some(u);
        }
    }
    None
}

/// Why a session's targets can't be committed or reverted by hand yet: the first secondary of its members that isn't taken over,
/// with the state of its pair.
pub(crate) fn untaken_refusal<P: Plant>(
    plant: &P,
    config: &Config,
    ss: &Sessions,
    s: SessionId,
) -> Option<Refusal>
    requires stands { StandsFor config.now (P.state plant.now) }
    requires members { AreReady (P.state plant.now) config.now (model.members_in (model.session_in ss.now.sessions s.0)) }
    ensures refusal { (r : Rest) (events : List Event) → result ≡ plans.untaken_refusal (model.members_in (model.session_in ss.now.sessions s.0)) (world_seen (P.state plant.now) config.now r events).control }
    ensures calm { is_stop result ≡ false }
{
    for at in 0..ss.member_count(s) {
        let m = ss.member_at(s, at).unwrap();
        if peek_head(plant, config, m.b).secondary.is_part() {
            return Some(pair_state(plant, config, m.b));
        }
    }
    None
}
