//! What a session says of a volume whose tracks are going to change.

ghost use Rattle.std.specs.Prelude.{◌≡◌, ℕ, ◌≤◌, ◌&&◌, false, List, length, IsSome, IfSome};
ghost use Rattle.dr_config.specs.Table.{StandsFor, place_of};
ghost use Rattle.dr_model.specs.declared.event.Event.{Event};
ghost use Rattle.dr_model.specs.Plans as plans;
ghost use Rattle.dr_model.specs.Sessions as model;
ghost use Rattle.dr_volume.specs.View.{Rest};
ghost use Rattle.dr_moves.specs.Checks.{is_stop};
ghost use Rattle.dr_flash.specs.Heads.{targets_by};
ghost use Rattle.dr_moves.specs.Here.{world_seen};
ghost use Rattle.dr_incr.specs.Steps.{volume_number};
ghost use Rattle.dr_gmirror.specs.Orders.{AreReady, with_sessions};

use dr_config::Config;
use dr_gmirror::restore_refusal;
use dr_ids::{Refusal, VolumeId};
use dr_plant::Plant;
use dr_session::Sessions;
use dr_volume::{Head, peek_head_at};

/// Whether a volume with this head is a target of y and a member's.
fn is_member_target(f: &Head, y: VolumeId) -> bool
    ensures { result ≡ (targets_by y.0 f.now && f.now.member) }
{
    f.related && f.source.0 == y.0 && f.member
}

/// The target of a volume that is a member's, if one is: the first of them in order of definition. It is looked at whether or not
/// its server is on.
fn member_target<P: Plant>(plant: &P, config: &Config, y: VolumeId) -> Option<VolumeId>
    requires stands { StandsFor config.now (P.state plant.now) }
    ensures target { (r : Rest) (events : List Event) → volume_number result ≡ plans.member_from y.0 (world_seen (P.state plant.now) config.now r events).control }
    ensures defined { IfSome result (λ t. IsSome (place_of config.now t.0)) }
{
    for place in 0..config.volumes() {
        let u = config.volume_at(place).unwrap();
        if is_member_target(&peek_head_at(plant, config, place), y) {
            return Some(u);
        }
    }
    None
}

/// Why what y contains can't change as far as sessions go: a target of y is a member's, and its restore would be refused for that.
pub(crate) fn yield_refusal<P: Plant>(
    plant: &P,
    config: &Config,
    ss: &Sessions,
    y: VolumeId,
) -> Option<Refusal>
    requires stands { StandsFor config.now (P.state plant.now) }
    requires members { (s : ℕ) → AreReady (P.state plant.now) config.now (model.members_in (model.session_in ss.now.sessions s)) }
    requires few { (s : ℕ) → length (model.members_in (model.session_in ss.now.sessions s)) ≤ 64 }
    ensures refusal { (r : Rest) (events : List Event) → result ≡ plans.yield_refusal y.0 (world_seen (P.state plant.now) config.now (with_sessions ss.now.sessions r) events).control }
    ensures calm { is_stop result ≡ false }
{
    let Some(t) = member_target(plant, config, y) else {
        return None;
    };
    restore_refusal(plant, config, ss, t)
}
