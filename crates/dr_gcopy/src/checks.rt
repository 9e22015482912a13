//! What commands on pairs ask of the two volumes.

ghost use Rattle.std.specs.Prelude.{◌≡◌, ◌≢◌, ◌∷◌, [], true, false, IsSome, List};
ghost use Rattle.dr_plant.specs.State.{PlantState};
ghost use Rattle.dr_config.specs.Table.{place_of};
ghost use Rattle.dr_model.specs.declared.event.Event.{Event};
ghost use Rattle.dr_model.specs.Carry.{check};
ghost use Rattle.dr_model.specs.Entries as entries;
ghost use Rattle.dr_model.specs.Entries.{running_check};
ghost use Rattle.dr_model.specs.Layout as layout;
ghost use Rattle.dr_model.specs.PairEntries as pairs;
ghost use Rattle.dr_volume.specs.View.{Rest, volume_seen};
ghost use Rattle.dr_moves.specs.Checks.{Checked, OnNone, is_stop};
ghost use Rattle.dr_moves.specs.Here.{world_seen, IsAtRest};
ghost use Rattle.dr_gcopy.specs.Steps.{unlike_checks, free_checks, flash_checks, make_checks, remove_checks, contact_checks, pause_checks, resume_checks};

use crate::parts::{is_primary_by, is_secondary_by, may_follow, may_lead, may_pause, may_resume};
use crate::reach::reach_refusal;
use dr_config::Config;
use dr_flash::{is_settled, relation_state};
use dr_ids::{Refusal, VolumeId, Which};
use dr_model::Part;
use dr_moves::{pair_state, secondary_state, server_of, tracks_of};
use dr_plant::Plant;
use dr_volume::peek_head;

/// Why nothing can be done on a volume now: its server is off.
pub fn running_refusal<P: Plant>(plant: &P, config: &Config, v: VolumeId) -> Option<Refusal>
    requires rest { IsAtRest (P.state plant.now) config.now }
    requires defined { IsSome (place_of config.now v.0) }
    ensures checked { (r : Rest) (events : List Event) → Checked (world_seen (P.state plant.now) config.now r events) (running_check (world_seen (P.state plant.now) config.now r events).control v.0 ∷ []) result }
    ensures running { OnNone result ((P.state plant.now).on (volume_seen (P.state plant.now) config.now v.0).server ≡ true) }
    ensures calm { is_stop result ≡ false }
{
    let server = server_of(config, v);
    if !plant.is_on(server.0) {
        return Some(Refusal::ServerOff { server });
    }
    None
}

/// Why two volumes can't be a pair: they are on one server, or their sizes differ.
fn unlike_refusal(config: &Config, a: VolumeId, b: VolumeId) -> Option<Refusal>
    requires primary { IsSome (place_of config.now a.0) }
    requires secondary { IsSome (place_of config.now b.0) }
    ensures checked { (x : PlantState) (r : Rest) (events : List Event) → Checked (world_seen x config.now r events) (unlike_checks a.0 b.0) result }
    ensures servers { OnNone result ((x : PlantState) → (volume_seen x config.now a.0).server ≢ (volume_seen x config.now b.0).server) }
    ensures size { OnNone result ((x : PlantState) → (volume_seen x config.now a.0).tracks ≡ (volume_seen x config.now b.0).tracks) }
    ensures calm { is_stop result ≡ false }
{
    if server_of(config, a).0 == server_of(config, b).0 {
        return Some(Refusal::Limit {
            which: Which::Server,
        });
    }
    if tracks_of(config, a) != tracks_of(config, b) {
        return Some(Refusal::Limit { which: Which::Size });
    }
    None
}

/// Why a pair of a and b can't be made beside those that there are: a has a part in a pair, or, where it is to be cascaded, is a primary
/// or no Metro Mirror secondary of another volume than b; or b is a primary or the secondary of another volume.
fn free_refusal<P: Plant>(
    plant: &P,
    config: &Config,
    a: VolumeId,
    b: VolumeId,
    cascade: bool,
) -> Option<Refusal>
    requires rest { IsAtRest (P.state plant.now) config.now }
    requires primary { IsSome (place_of config.now a.0) }
    requires secondary { IsSome (place_of config.now b.0) }
    ensures checked { (r : Rest) (events : List Event) → Checked (world_seen (P.state plant.now) config.now r events) (free_checks (world_seen (P.state plant.now) config.now r events).control a.0 b.0 cascade) result }
    ensures calm { is_stop result ≡ false }
{
    if !may_lead(&peek_head(plant, config, a), b, cascade) {
        return Some(pair_state(plant, config, a));
    }
    if !may_follow(&peek_head(plant, config, b), a) {
        return Some(pair_state(plant, config, b));
    }
    None
}

/// Why a pair of a and b can't be made beside the FlashCopy relationships: a is a target, or b is one, or b stands in a
/// revertible or reversing relationship.
fn flash_refusal<P: Plant>(plant: &P, config: &Config, a: VolumeId, b: VolumeId) -> Option<Refusal>
    requires rest { IsAtRest (P.state plant.now) config.now }
    requires primary { IsSome (place_of config.now a.0) }
    requires secondary { IsSome (place_of config.now b.0) }
    ensures checked { (r : Rest) (events : List Event) → Checked (world_seen (P.state plant.now) config.now r events) (flash_checks (world_seen (P.state plant.now) config.now r events).control a.0 b.0) result }
    ensures calm { is_stop result ≡ false }
{
    if peek_head(plant, config, a).related {
        return Some(relation_state(plant, config, a));
    }
    if peek_head(plant, config, b).related {
        return Some(relation_state(plant, config, b));
    }
    if !is_settled(plant, config, b) {
        return Some(relation_state(plant, config, b));
    }
    None
}

/// Why a and b can't be made a pair, whatever their tracks have.
pub(crate) fn make_refusal<P: Plant>(
    plant: &P,
    config: &Config,
    a: VolumeId,
    b: VolumeId,
    cascade: bool,
) -> Option<Refusal>
    requires rest { IsAtRest (P.state plant.now) config.now }
    requires primary { IsSome (place_of config.now a.0) }
    requires secondary { IsSome (place_of config.now b.0) }
    ensures checked { (r : Rest) (events : List Event) → Checked (world_seen (P.state plant.now) config.now r events) (make_checks (world_seen (P.state plant.now) config.now r events).control a.0 b.0 cascade) result }
    ensures running { OnNone result ((P.state plant.now).on (volume_seen (P.state plant.now) config.now a.0).server ≡ true) }
    ensures reached { OnNone result ((P.state plant.now).on (volume_seen (P.state plant.now) config.now b.0).server ≡ true) }
    ensures apart { OnNone result (a.0 ≢ b.0) }
    ensures size { OnNone result ((volume_seen (P.state plant.now) config.now a.0).tracks ≡ (volume_seen (P.state plant.now) config.now b.0).tracks) }
    ensures calm { is_stop result ≡ false }
{
    if let Some(why) = running_refusal(plant, config, a) {
        return Some(why);
    }
    if let Some(why) = reach_refusal(plant, config, a, b) {
        return Some(why);
    }
    if let Some(why) = unlike_refusal(config, a, b) {
        return Some(why);
    }
    if let Some(why) = free_refusal(plant, config, a, b, cascade) {
        return Some(why);
    }
    flash_refusal(plant, config, a, b)
}

/// Why the pair of a and b can't be ended: the server of a is off, or a is no primary of b.
pub(crate) fn remove_refusal<P: Plant>(
    plant: &P,
    config: &Config,
    a: VolumeId,
    b: VolumeId,
) -> Option<Refusal>
    requires rest { IsAtRest (P.state plant.now) config.now }
    requires primary { IsSome (place_of config.now a.0) }
    ensures checked { (r : Rest) (events : List Event) → Checked (world_seen (P.state plant.now) config.now r events) (remove_checks (world_seen (P.state plant.now) config.now r events).control a.0 b.0) result }
    ensures running { OnNone result ((P.state plant.now).on (volume_seen (P.state plant.now) config.now a.0).server ≡ true) }
    ensures calm { is_stop result ≡ false }
{
    if let Some(why) = running_refusal(plant, config, a) {
        return Some(why);
    }
    if !is_primary_by(&peek_head(plant, config, a), b) {
        return Some(pair_state(plant, config, a));
    }
    None
}

/// Why b can't be told by a: the server of b is off, or the link between the servers is down.
pub(crate) fn contact_refusal<P: Plant>(
    plant: &P,
    config: &Config,
    a: VolumeId,
    b: VolumeId,
) -> Option<Refusal>
    requires rest { IsAtRest (P.state plant.now) config.now }
    requires primary { IsSome (place_of config.now a.0) }
    requires secondary { IsSome (place_of config.now b.0) }
    ensures checked { (r : Rest) (events : List Event) → Checked (world_seen (P.state plant.now) config.now r events) (contact_checks (world_seen (P.state plant.now) config.now r events).control a.0 b.0) result }
    ensures running { OnNone result ((P.state plant.now).on (volume_seen (P.state plant.now) config.now b.0).server ≡ true) }
    ensures calm { is_stop result ≡ false }
{
    if let Some(why) = running_refusal(plant, config, b) {
        return Some(why);
    }
    let from = server_of(config, a);
    let to = server_of(config, b);
    if !config.link_up(from, to) {
        return Some(Refusal::LinkDown { a: from, b: to });
    }
    None
}

/// Why the pair of a and b can't be paused: the server of a is off, or a is no primary of b, or a Suspended one.
pub(crate) fn pause_refusal<P: Plant>(
    plant: &P,
    config: &Config,
    a: VolumeId,
    b: VolumeId,
) -> Option<Refusal>
    requires rest { IsAtRest (P.state plant.now) config.now }
    requires primary { IsSome (place_of config.now a.0) }
    ensures checked { (r : Rest) (events : List Event) → Checked (world_seen (P.state plant.now) config.now r events) (pause_checks (world_seen (P.state plant.now) config.now r events).control a.0 b.0) result }
    ensures running { OnNone result ((P.state plant.now).on (volume_seen (P.state plant.now) config.now a.0).server ≡ true) }
    ensures primary { OnNone result (layout.is_part (volume_seen (P.state plant.now) config.now a.0).fields.primary ≡ true) }
    ensures calm { is_stop result ≡ false }
{
    if let Some(why) = running_refusal(plant, config, a) {
        return Some(why);
    }
    if !may_pause(&peek_head(plant, config, a), b) {
        return Some(pair_state(plant, config, a));
    }
    None
}

/// Why a pair of that kind of a and b can't go on, as far as a says: its server is off, or it is no Suspended primary of b
/// of that kind.
fn suspended_refusal<P: Plant>(
    plant: &P,
    config: &Config,
    a: VolumeId,
    b: VolumeId,
    kind: Part,
) -> Option<Refusal>
    requires rest { IsAtRest (P.state plant.now) config.now }
    requires primary { IsSome (place_of config.now a.0) }
    ensures checked { (r : Rest) (events : List Event) → Checked (world_seen (P.state plant.now) config.now r events) (running_check (world_seen (P.state plant.now) config.now r events).control a.0 ∷ check (pairs.may_resume a.0 b.0 kind) (entries.pair_state (world_seen (P.state plant.now) config.now r events).control a.0) ∷ []) result }
    ensures running { OnNone result ((P.state plant.now).on (volume_seen (P.state plant.now) config.now a.0).server ≡ true) }
    ensures primary { OnNone result (layout.is_part (volume_seen (P.state plant.now) config.now a.0).fields.primary ≡ true) }
    ensures calm { is_stop result ≡ false }
{
    if let Some(why) = running_refusal(plant, config, a) {
        return Some(why);
    }
    if !may_resume(&peek_head(plant, config, a), b, kind) {
        return Some(pair_state(plant, config, a));
    }
    None
}

/// Why a pair of that kind of a and b can't go on: the server of a is off, a is no Suspended primary of b of that kind, b
/// can't be reached from a, or b isn't the secondary of a.
pub(crate) fn resume_refusal<P: Plant>(
    plant: &P,
    config: &Config,
    a: VolumeId,
    b: VolumeId,
    kind: Part,
) -> Option<Refusal>
    requires rest { IsAtRest (P.state plant.now) config.now }
    requires primary { IsSome (place_of config.now a.0) }
    requires secondary { IsSome (place_of config.now b.0) }
    ensures checked { (r : Rest) (events : List Event) → Checked (world_seen (P.state plant.now) config.now r events) (resume_checks (world_seen (P.state plant.now) config.now r events).control a.0 b.0 kind) result }
    ensures running { OnNone result ((P.state plant.now).on (volume_seen (P.state plant.now) config.now a.0).server ≡ true) }
    ensures reached { OnNone result ((P.state plant.now).on (volume_seen (P.state plant.now) config.now b.0).server ≡ true) }
    ensures primary { OnNone result (layout.is_part (volume_seen (P.state plant.now) config.now a.0).fields.primary ≡ true) }
    ensures secondary { OnNone result (layout.is_part (volume_seen (P.state plant.now) config.now b.0).fields.secondary ≡ true) }
    ensures calm { is_stop result ≡ false }
{
    if let Some(why) = suspended_refusal(plant, config, a, b, kind) {
        return Some(why);
    }
    if let Some(why) = reach_refusal(plant, config, a, b) {
        return Some(why);
    }
    if !is_secondary_by(&peek_head(plant, config, b), a) {
        return Some(secondary_state(plant, config, b));
    }
    None
}
