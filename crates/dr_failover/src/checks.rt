//! Why a pair isn't turned round.

ghost use Rattle.std.specs.Prelude.{◌≡◌, ◌&&◌, true, false, List, [], ◌∷◌, IsSome};
ghost use Rattle.dr_config.specs.Table.{place_of};
ghost use Rattle.dr_model.specs.declared.event.Event.{Event};
ghost use Rattle.dr_model.specs.Entries as entries;
ghost use Rattle.dr_model.specs.Entries.{running_check};
ghost use Rattle.dr_model.specs.Carry.{check};
ghost use Rattle.dr_model.specs.PairEntries as pair_entries;
ghost use Rattle.dr_model.specs.Pairs as pairs;
ghost use Rattle.dr_volume.specs.View.{Rest, volume_seen};
ghost use Rattle.dr_moves.specs.Checks.{Checked, OnNone, is_stop};
ghost use Rattle.dr_moves.specs.Here.{world_seen, IsAtRest};
ghost use Rattle.dr_gcopy.specs.Heads.{primary_by, secondary_by};
ghost use Rattle.dr_failover.specs.Steps.{failover_checks, lead_checks, settled_checks, failback_checks};

use dr_config::Config;
use dr_flash::{is_settled, relation_state};
use dr_gcopy::{is_primary_by, is_secondary_by, reach_refusal, running_refusal};
use dr_ids::{Refusal, VolumeId};
use dr_model::Part;
use dr_moves::{pair_state, secondary_state};
use dr_plant::Plant;
use dr_volume::{Head, peek_head};

/// Whether a volume with this head is a secondary of `a`, of that kind.
fn may_take_over(h: &Head, a: VolumeId, kind: Part) -> bool
    ensures { result ≡ (secondary_by a.0 h.now && pairs.is_kind kind h.now.secondary) }
{
    is_secondary_by(h, a) && h.secondary.is_kind(kind)
}

/// Why secondary b of a, of that kind, isn't taken over: its server is off, or it is no such secondary.
pub fn failover_refusal<P: Plant>(
    plant: &P,
    config: &Config,
    b: VolumeId,
    a: VolumeId,
    kind: Part,
) -> Option<Refusal>
    requires rest { IsAtRest (P.state plant.now) config.now }
    requires defined { IsSome (place_of config.now b.0) }
    ensures checked { (r : Rest) (events : List Event) → Checked (world_seen (P.state plant.now) config.now r events) (failover_checks (world_seen (P.state plant.now) config.now r events).control b.0 a.0 kind) result }
    ensures running { OnNone result ((P.state plant.now).on (volume_seen (P.state plant.now) config.now b.0).server ≡ true) }
    ensures secondary { OnNone result ((pairs.is_secondary_of a.0 (volume_seen (P.state plant.now) config.now b.0).fields && pairs.is_kind kind (volume_seen (P.state plant.now) config.now b.0).fields.secondary) ≡ true) }
    ensures calm { is_stop result ≡ false }
{
    if let Some(why) = running_refusal(plant, config, b) {
        return Some(why);
    }
    if !may_take_over(&peek_head(plant, config, b), a, kind) {
        return Some(secondary_state(plant, config, b));
    }
    None
}

/// Whether a volume with this head is a primary of `y`, of that kind.
fn leads_as(h: &Head, y: VolumeId, kind: Part) -> bool
    ensures { result ≡ (primary_by y.0 h.now && pairs.is_kind kind h.now.primary) }
{
    is_primary_by(h, y) && h.primary.is_kind(kind)
}

/// Why x and y aren't primaries of each other, x of that kind, or one of them is a secondary, too.
fn lead_refusal<P: Plant>(
    plant: &P,
    config: &Config,
    x: VolumeId,
    y: VolumeId,
    kind: Part,
) -> Option<Refusal>
    requires rest { IsAtRest (P.state plant.now) config.now }
    requires first { IsSome (place_of config.now x.0) }
    requires second { IsSome (place_of config.now y.0) }
    ensures checked { (r : Rest) (events : List Event) → Checked (world_seen (P.state plant.now) config.now r events) (lead_checks (world_seen (P.state plant.now) config.now r events).control x.0 y.0 kind) result }
    ensures leads { OnNone result ((pairs.is_primary_of y.0 (volume_seen (P.state plant.now) config.now x.0).fields && pairs.is_kind kind (volume_seen (P.state plant.now) config.now x.0).fields.primary) ≡ true) }
    ensures led { OnNone result (pairs.is_primary_of x.0 (volume_seen (P.state plant.now) config.now y.0).fields ≡ true) }
    ensures calm { is_stop result ≡ false }
{
    if !leads_as(&peek_head(plant, config, x), y, kind) {
        return Some(pair_state(plant, config, x));
    }
    if !is_primary_by(&peek_head(plant, config, y), x) {
        return Some(pair_state(plant, config, y));
    }
    if peek_head(plant, config, x).secondary.is_part() {
        return Some(secondary_state(plant, config, x));
    }
    if peek_head(plant, config, y).secondary.is_part() {
        return Some(secondary_state(plant, config, y));
    }
    None
}

/// Why y, or else x, may not change: it stands in a revertible or reversing relationship.
fn settled_refusal<P: Plant>(
    plant: &P,
    config: &Config,
    x: VolumeId,
    y: VolumeId,
) -> Option<Refusal>
    requires rest { IsAtRest (P.state plant.now) config.now }
    requires first { IsSome (place_of config.now x.0) }
    requires second { IsSome (place_of config.now y.0) }
    ensures checked { (r : Rest) (events : List Event) → Checked (world_seen (P.state plant.now) config.now r events) (settled_checks (world_seen (P.state plant.now) config.now r events).control x.0 y.0) result }
    ensures calm { is_stop result ≡ false }
{
    if !is_settled(plant, config, y) {
        return Some(relation_state(plant, config, y));
    }
    if !is_settled(plant, config, x) {
        return Some(relation_state(plant, config, x));
    }
    None
}

/// Why the pair of x and y can't go on with x as its primary, whatever sessions say: the server of x is off, y can't be reached from x,
/// x is no primary of y of that kind, y is no primary of x, x, or else y, is a secondary, or y, or else x, stands in a revertible or reversing relationship.
pub(crate) fn failback_refusal<P: Plant>(
    plant: &P,
    config: &Config,
    x: VolumeId,
    y: VolumeId,
    kind: Part,
) -> Option<Refusal>
    requires rest { IsAtRest (P.state plant.now) config.now }
    requires first { IsSome (place_of config.now x.0) }
    requires second { IsSome (place_of config.now y.0) }
    ensures checked { (r : Rest) (events : List Event) → Checked (world_seen (P.state plant.now) config.now r events) (failback_checks (world_seen (P.state plant.now) config.now r events).control x.0 y.0 kind) result }
    ensures running { OnNone result ((P.state plant.now).on (volume_seen (P.state plant.now) config.now x.0).server ≡ true) }
    ensures reached { OnNone result ((P.state plant.now).on (volume_seen (P.state plant.now) config.now y.0).server ≡ true) }
    ensures leads { OnNone result ((pairs.is_primary_of y.0 (volume_seen (P.state plant.now) config.now x.0).fields && pairs.is_kind kind (volume_seen (P.state plant.now) config.now x.0).fields.primary) ≡ true) }
    ensures led { OnNone result (pairs.is_primary_of x.0 (volume_seen (P.state plant.now) config.now y.0).fields ≡ true) }
    ensures calm { is_stop result ≡ false }
{
    if let Some(why) = running_refusal(plant, config, x) {
        return Some(why);
    }
    if let Some(why) = reach_refusal(plant, config, x, y) {
        return Some(why);
    }
    if let Some(why) = lead_refusal(plant, config, x, y, kind) {
        return Some(why);
    }
    settled_refusal(plant, config, x, y)
}
