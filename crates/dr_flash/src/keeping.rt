//! Before a track of a source changes, its targets keep it.

ghost use Rattle.std.specs.Prelude.{◌≡◌, ℕ, ◌<◌, ◌≤◌, ◌+◌, true, false, length, None, IsSome, OnOk, OnErr, is_err};
ghost use Rattle.dr_logic.specs.Counts.{Counted};
ghost use Rattle.dr_config.specs.Table.{place_of};
ghost use Rattle.dr_model.specs.Entries as entries;
ghost use Rattle.dr_model.specs.Entries.{copies_from};
ghost use Rattle.dr_model.specs.ReadStops.{Ends};
ghost use Rattle.dr_model.specs.Refusals.{stopped};
ghost use Rattle.dr_volume.specs.Update.{IsAsBefore};
ghost use Rattle.dr_volume.specs.View.{Rest, volume_seen, ids_of};
ghost use Rattle.dr_moves.specs.Fit.{RelationsFit};
ghost use Rattle.dr_moves.specs.Here.{world_seen, refusal_of, armed_in, IsAtRest};
ghost use Rattle.dr_moves.specs.Made.{IsAt};
ghost use Rattle.dr_moves.specs.Turns.{Leads, Fails};
ghost use Rattle.dr_flash.specs.Keeping.{KeptAll};
ghost use Rattle.dr_flash.specs.Views.{AllShow, kept_for, KeepsTrack};

use crate::keep::keep_at;
use dr_config::Config;
use dr_ids::{Refusal, VolumeId};
use dr_model::Journal;
use dr_plant::Plant;

/// The targets of v keep track t, one after another.
fn keep_all<P: Plant>(
    plant: &mut P,
    config: &Config,
    journal: &mut Journal,
    v: VolumeId,
    t: u16,
) -> Result<(), Refusal>
    requires at { IsAt (P.state plant.old) config.now }
    requires running { (P.state plant.old).on (volume_seen (P.state plant.old) config.now v.0).server ≡ true }
    requires within { t < (volume_seen (P.state plant.old) config.now v.0).tracks }
    requires room { length config.now.volumes + 1 ≤ journal.old.spare }
    ensures kept_all { KeptAll (P.state plant.old) (P.state plant.new) config.now journal.old journal.new v.0 t result }
{
    for place in 0..config.volumes() {
        keep_at(plant, config, journal, v, t, place)?;
    }
    Ok(())
}

/// Before track t of volume v changes, each target of v that isn't restored onto it keeps the track, or notes the change
/// where it holds the track already, in order of definition. The volume's server is on. Fails where the server stops in a
/// move or goes off at a read; what was kept by then stays. The journal needs room for an event for each volume and one
/// more.
pub fn copy_first<P: Plant>(
    plant: &mut P,
    config: &Config,
    journal: &mut Journal,
    v: VolumeId,
    t: u16,
) -> Result<(), Refusal>
    requires rest { IsAtRest (P.state plant.old) config.now }
    requires fit { RelationsFit (P.state plant.old) config.now }
    requires defined { IsSome (place_of config.now v.0) }
    requires running { (P.state plant.old).on (volume_seen (P.state plant.old) config.now v.0).server ≡ true }
    requires within { t < (volume_seen (P.state plant.old) config.now v.0).tracks }
    requires room { length config.now.volumes + 1 ≤ journal.old.spare }
    ensures carried { (r : Rest) → Ends (armed_in (P.state plant.old)) (world_seen (P.state plant.new) config.now r journal.new.events) (refusal_of result) (world_seen (P.state plant.old) config.now r journal.old.events) (entries.copy_first (ids_of config.now.volumes) v.0 t) }
    ensures leads { OnOk result ((r : Rest) → Leads (world_seen (P.state plant.old) config.now r journal.old.events) (entries.copy_first (ids_of config.now.volumes) v.0 t) (world_seen (P.state plant.new) config.now r journal.new.events)) }
    ensures fails { OnErr result ((r : Rest) → Fails (armed_in (P.state plant.old)) (world_seen (P.state plant.old) config.now r journal.old.events) (entries.copy_first (ids_of config.now.volumes) v.0 t) (world_seen (P.state plant.new) config.now r journal.new.events) (refusal_of result)) }
    ensures refused { OnErr result (refusal_of result ≡ Some (stopped (volume_seen (P.state plant.old) config.now v.0).server)) }
    ensures rest { IsAtRest (P.state plant.new) config.now }
    ensures fit { RelationsFit (P.state plant.new) config.now }
    ensures unarmed { (q : ℕ) → (P.state plant.old).read_fuse q ≡ None → (P.state plant.new).read_fuse q ≡ None }
    ensures faults { Counted (is_err result) (P.state plant.old).faults (P.state plant.new).faults }
    ensures others { (q : ℕ) → copies_from v.0 (volume_seen (P.state plant.old) config.now q).fields ≡ false → IsAsBefore (P.state plant.old) (P.state plant.new) config.now q }
    ensures show { AllShow (P.state plant.old) (P.state plant.new) config.now }
    ensures held { OnOk result ((q : ℕ) → KeepsTrack (P.state plant.old) (P.state plant.new) config.now v.0 t q) }
    ensures apart { (q : ℕ) → kept_for v.0 (volume_seen (P.state plant.old) config.now q).fields ≡ false → IsAsBefore (P.state plant.old) (P.state plant.new) config.now q }
    ensures on { OnOk result ((P.state plant.new).on ≡ (P.state plant.old).on) }
    ensures room { journal.old.spare ≤ journal.new.spare + (length config.now.volumes + 1) }
    ensures room_left { OnOk result (journal.old.spare ≤ journal.new.spare + length config.now.volumes) }
    ensures spare { length journal.new.events + journal.new.spare ≡ length journal.old.events + journal.old.spare }
{
    keep_all(plant, config, journal, v, t)
}
