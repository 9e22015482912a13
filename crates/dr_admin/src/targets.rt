//! The target that makes a member of a primary and its secondary.

ghost use Rattle.std.specs.Prelude.{◌≡◌, ◌&&◌, ◌||◌, not, List, IfSome, option_map};
ghost use Rattle.dr_config.specs.Table.{StandsFor};
ghost use Rattle.dr_model.specs.declared.event.Event.{Event};
ghost use Rattle.dr_model.specs.SessionPlans as plans;
ghost use Rattle.dr_volume.specs.View.{Rest};
ghost use Rattle.dr_flash.specs.Heads.{targets_by};
ghost use Rattle.dr_moves.specs.Here.{world_seen};
ghost use Rattle.dr_admin.specs.Targets.{IsNextTarget, IsDefinedTarget};

use dr_config::Config;
use dr_ids::VolumeId;
use dr_plant::Plant;
use dr_volume::{Head, peek_head, peek_head_at};

/// A target, and its place in the configuration.
#[derive(Clone, Copy)]
pub(crate) struct Found {
    volume: VolumeId,
    place: usize,
}

/// Whether a volume with this head is a target of b whose changes are recorded, and on which the host may not write.
fn is_mirrored(f: &Head, b: VolumeId) -> bool
    ensures { result ≡ (targets_by b.0 f.now && (f.now.recorded && f.now.inhibited)) }
{
    f.related && f.source.0 == b.0 && (f.recorded && f.inhibited)
}

/// The first such target of b from a place on, if there is one.
fn next_mirrored<P: Plant>(plant: &P, config: &Config, b: VolumeId, from: usize) -> Option<Found>
    requires stands { StandsFor config.now (P.state plant.now) }
    ensures { IsNextTarget (P.state plant.now) config.now b.0 from result }
{
    for place in from..config.volumes() {
        let volume = config.volume_at(place).unwrap();
        if is_mirrored(&peek_head_at(plant, config, place), b) {
            return Some(Found { volume, place });
        }
    }
    None
}

/// The only such target of b, if it has just one.
fn only_mirrored<P: Plant>(plant: &P, config: &Config, b: VolumeId) -> Option<VolumeId>
    requires stands { StandsFor config.now (P.state plant.now) }
    ensures target { (r : Rest) (events : List Event) → option_map (λ u. u.0) result ≡ plans.the_only (plans.mirrored_targets (world_seen (P.state plant.now) config.now r events).control b.0) }
    ensures is { IfSome result (λ u. IsDefinedTarget (P.state plant.now) config.now b.0 u.0) }
{
    let Some(first) = next_mirrored(plant, config, b, 0) else {
        return None;
    };
    if let Some(_) = next_mirrored(plant, config, b, first.place + 1) {
        return None;
    }
    Some(first.volume)
}

/// Whether the relationship of a target with this head is neither revertible nor reversing.
fn is_settled(f: &Head) -> bool
    ensures { result ≡ not (f.now.revertible || f.now.reversing) }
{
    !(f.revertible || f.reversing)
}

/// The only such target of b, if it has just one, and that one is neither revertible nor reversing.
pub(crate) fn member_target<P: Plant>(plant: &P, config: &Config, b: VolumeId) -> Option<VolumeId>
    requires stands { StandsFor config.now (P.state plant.now) }
    ensures target { (r : Rest) (events : List Event) → option_map (λ u. u.0) result ≡ plans.member_target (world_seen (P.state plant.now) config.now r events).control b.0 }
    ensures is { IfSome result (λ u. IsDefinedTarget (P.state plant.now) config.now b.0 u.0) }
{
    let Some(u) = only_mirrored(plant, config, b) else {
        return None;
    };
    if is_settled(&peek_head(plant, config, u)) {
        return Some(u);
    }
    None
}
