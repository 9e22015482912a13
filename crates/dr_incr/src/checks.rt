//! What a resynchronization and a restore ask of the two volumes.

ghost use Rattle.std.specs.Prelude.{◌≡◌, ◌&&◌, ◌||◌, not, true, false, nat_eq, Option, IsSome, List};
ghost use Rattle.std.specs.List.{list_any};
ghost use Rattle.dr_config.specs.Table.{place_of};
ghost use Rattle.dr_ids.specs.declared.refusal.Refusal.{Refusal};
ghost use Rattle.dr_model.specs.Control.{Control};
ghost use Rattle.dr_model.specs.declared.event.Event.{Event};
ghost use Rattle.dr_model.specs.Entries.{copies_from};
ghost use Rattle.dr_model.specs.Layout.{is_part};
ghost use Rattle.dr_model.specs.Pairs as pairs;
ghost use Rattle.dr_volume.specs.View.{Rest, volume_seen};
ghost use Rattle.dr_moves.specs.Checks.{Checked, OnNone, is_stop};
ghost use Rattle.dr_flash.specs.Heads.{targets_by};
ghost use Rattle.dr_moves.specs.Here.{world_seen, IsAtRest};
ghost use Rattle.dr_flash.specs.Standing.{targets_in};
ghost use Rattle.dr_incr.specs.Steps.{target_checks, lone_checks};

use dr_config::Config;
use dr_flash::relation_state;
use dr_ids::{Refusal, VolumeId};
use dr_moves::{is_quiet, secondary_state, server_of};
use dr_plant::Plant;
use dr_volume::{Head, peek_head, peek_head_at};

/// Whether a volume with this head is a target of s whose changes are recorded, and neither revertible nor restored.
fn is_recorded_target(f: &Head, s: VolumeId) -> bool
    ensures { result ≡ (targets_by s.0 f.now && (not f.now.revertible && not f.now.reversing) && f.now.recorded) }
{
    f.related && f.source.0 == s.0 && !f.revertible && !f.reversing && f.recorded
}

/// Why t can't be made a copy of s anew or be restored onto s: the server of s is off, or else `first` says why, or else t is
/// no target of s whose changes are recorded, or is revertible or restored.
pub(crate) fn target_refusal<P: Plant>(
    plant: &P,
    config: &Config,
    s: VolumeId,
    t: VolumeId,
    first: Option<Refusal>,
) -> Option<Refusal>
    requires rest { IsAtRest (P.state plant.now) config.now }
    requires source { IsSome (place_of config.now s.0) }
    requires target { IsSome (place_of config.now t.0) }
    requires calm { is_stop first ≡ false }
    ensures checked { (why : Control → Option Refusal) (r : Rest) (events : List Event) → why (world_seen (P.state plant.now) config.now r events).control ≡ first → Checked (world_seen (P.state plant.now) config.now r events) (target_checks why (world_seen (P.state plant.now) config.now r events).control s.0 t.0) result }
    ensures running { OnNone result ((P.state plant.now).on (volume_seen (P.state plant.now) config.now s.0).server ≡ true) }
    ensures related { OnNone result (copies_from s.0 (volume_seen (P.state plant.now) config.now t.0).fields ≡ true) }
    ensures recorded { OnNone result ((volume_seen (P.state plant.now) config.now t.0).fields.recorded ≡ true) }
    ensures forward { OnNone result ((volume_seen (P.state plant.now) config.now t.0).fields.reversing ≡ false) }
    ensures not_revertible { OnNone result ((volume_seen (P.state plant.now) config.now t.0).fields.revertible ≡ false) }
    ensures calm { is_stop result ≡ false }
{
    let server = server_of(config, s);
    if !plant.is_on(server.0) {
        return Some(Refusal::ServerOff { server });
    }
    if let Some(why) = first {
        return Some(why);
    }
    if !is_recorded_target(&peek_head(plant, config, t), s) {
        return Some(relation_state(plant, config, t));
    }
    None
}

/// Whether a volume u with this head is a target of s other than t that is revertible or restored.
fn is_other_restore(f: &Head, s: VolumeId, t: VolumeId, u: VolumeId) -> bool
    ensures { result ≡ (targets_by s.0 f.now && (not (nat_eq u.0 t.0) && (f.now.revertible || f.now.reversing))) }
{
    f.related && f.source.0 == s.0 && (u.0 != t.0 && (f.revertible || f.reversing))
}

/// Whether a target of s other than t is revertible or restored.
fn has_other_restore<P: Plant>(plant: &P, config: &Config, s: VolumeId, t: VolumeId) -> bool
    requires rest { IsAtRest (P.state plant.now) config.now }
    ensures { result ≡ list_any (λ u. not (nat_eq u t.0) && ((volume_seen (P.state plant.now) config.now u).fields.revertible || (volume_seen (P.state plant.now) config.now u).fields.reversing)) (targets_in (P.state plant.now) config.now s.0) }
{
    for place in 0..config.volumes() {
        let u = config.volume_at(place).unwrap();
        if is_other_restore(&peek_head_at(plant, config, place), s, t, u) {
            return true;
        }
    }
    false
}

/// Whether a volume with this head may take tracks back: it is no secondary, and no primary but a Suspended one.
fn may_return(f: &Head) -> bool
    ensures { result ≡ (not (is_part f.now.secondary) && (not (is_part f.now.primary) || pairs.is_suspended f.now.primary_state)) }
{
    !f.secondary.is_part() && is_quiet(f)
}

/// Why t can't be restored onto s: another target of s is revertible or restored, or s is a secondary, or a primary that
/// isn't Suspended.
pub(crate) fn lone_refusal<P: Plant>(
    plant: &P,
    config: &Config,
    s: VolumeId,
    t: VolumeId,
) -> Option<Refusal>
    requires rest { IsAtRest (P.state plant.now) config.now }
    requires source { IsSome (place_of config.now s.0) }
    ensures checked { (r : Rest) (events : List Event) → Checked (world_seen (P.state plant.now) config.now r events) (lone_checks (world_seen (P.state plant.now) config.now r events).control s.0 t.0) result }
    ensures calm { is_stop result ≡ false }
{
    if has_other_restore(plant, config, s, t) {
        return Some(relation_state(plant, config, s));
    }
    if !may_return(&peek_head(plant, config, s)) {
        return Some(secondary_state(plant, config, s));
    }
    None
}
