//! Two volumes are compared.

ghost use Rattle.std.specs.Prelude.{◌≡◌, ◌≢◌, ℕ, ◌<◌, ◌≤◌, ◌+◌, true, false, List, length, None, Some, IsSome, OnOk, OnErr};
ghost use Rattle.dr_logic.specs.Counts.{Counted};
ghost use Rattle.dr_config.specs.Table.{place_of};
ghost use Rattle.dr_ids.specs.declared.refusal.Refusal.TheVariants.{NotIdentical};
ghost use Rattle.dr_model.specs.declared.event.Event.{Event};
ghost use Rattle.dr_model.specs.PairEntries as pairs;
ghost use Rattle.dr_model.specs.Plans.{compare_entries};
ghost use Rattle.dr_model.specs.ReadStops.{Ends};
ghost use Rattle.dr_volume.specs.Update.{IsAsBefore};
ghost use Rattle.dr_volume.specs.View.{Rest, volume_seen, track_seen};
ghost use Rattle.dr_moves.specs.Checks.{Checked, OnNone, is_stop};
ghost use Rattle.dr_moves.specs.Here.{world_seen, refusal_of, armed_in, IsAtRest};
ghost use Rattle.dr_failover.specs.Steps.{compare_checks};
ghost use Rattle.dr_failover.specs.Outcomes.{DifferFirst};

use dr_config::Config;
use dr_gcopy::{difference, running_refusal};
use dr_ids::{Refusal, VolumeId, Which};
use dr_model::Journal;
use dr_moves::tracks_of;
use dr_plant::Plant;

/// Why two volumes aren't compared: the server of the first is off, or else that of the second, or else their sizes differ.
fn compare_refusal<P: Plant>(
    plant: &P,
    config: &Config,
    v: VolumeId,
    u: VolumeId,
) -> Option<Refusal>
    requires rest { IsAtRest (P.state plant.now) config.now }
    requires first { IsSome (place_of config.now v.0) }
    requires second { IsSome (place_of config.now u.0) }
    ensures checked { (r : Rest) (events : List Event) → Checked (world_seen (P.state plant.now) config.now r events) (compare_checks (world_seen (P.state plant.now) config.now r events).control v.0 u.0) result }
    ensures first { OnNone result ((P.state plant.now).on (volume_seen (P.state plant.now) config.now v.0).server ≡ true) }
    ensures second { OnNone result ((P.state plant.now).on (volume_seen (P.state plant.now) config.now u.0).server ≡ true) }
    ensures size { OnNone result ((volume_seen (P.state plant.now) config.now v.0).tracks ≡ (volume_seen (P.state plant.now) config.now u.0).tracks) }
    ensures other { (t : ℕ) → result ≢ Some (NotIdentical t) }
    ensures calm { is_stop result ≡ false }
{
    if let Some(why) = running_refusal(plant, config, v) {
        return Some(why);
    }
    if let Some(why) = running_refusal(plant, config, u) {
        return Some(why);
    }
    if tracks_of(config, v) != tracks_of(config, u) {
        return Some(Refusal::Limit { which: Which::Size });
    }
    None
}

/// Looks whether two volumes contain the same on each track, whatever they show; the caller knows both. Refused, in this order, where
/// the server of the first is off, that of the second is off, their sizes differ, or at the first track that differs. Nothing
/// changes, but where a server goes off at a read, which fails it too. The journal needs room for an event.
pub fn compare_volumes<P: Plant>(
    plant: &mut P,
    config: &Config,
    journal: &mut Journal,
    v: VolumeId,
    u: VolumeId,
) -> Result<(), Refusal>
    requires rest { IsAtRest (P.state plant.old) config.now }
    requires first { IsSome (place_of config.now v.0) }
    requires second { IsSome (place_of config.now u.0) }
    requires room { 1 ≤ journal.old.spare }
    ensures carried { (r : Rest) → Ends (armed_in (P.state plant.old)) (world_seen (P.state plant.new) config.now r journal.new.events) (refusal_of result) (world_seen (P.state plant.old) config.now r journal.old.events)
        (compare_entries (world_seen (P.state plant.old) config.now r journal.old.events).control (track_seen (P.state plant.old) config.now) v.0 u.0) }
    ensures unchanged { is_stop (refusal_of result) ≡ false → (P.state plant.new ≡ P.state plant.old) × (journal.new ≡ journal.old) }
    ensures equal { OnOk result ((t : ℕ) → t < (volume_seen (P.state plant.old) config.now v.0).tracks → track_seen (P.state plant.old) config.now v.0 t ≡ track_seen (P.state plant.old) config.now u.0 t) }
    ensures differ { (t : ℕ) → refusal_of result ≡ Some (NotIdentical t) → DifferFirst (track_seen (P.state plant.old) config.now v.0) (track_seen (P.state plant.old) config.now u.0) (volume_seen (P.state plant.old) config.now v.0).tracks t }
    ensures same { (q : ℕ) → IsAsBefore (P.state plant.old) (P.state plant.new) config.now q }
    ensures rest { IsAtRest (P.state plant.new) config.now }
    ensures unarmed { (q : ℕ) → (P.state plant.old).read_fuse q ≡ None → (P.state plant.new).read_fuse q ≡ None }
    ensures faults { Counted (is_stop (refusal_of result)) (P.state plant.old).faults (P.state plant.new).faults }
    ensures room { journal.old.spare ≤ journal.new.spare + 1 }
    ensures spare { length journal.new.events + journal.new.spare ≡ length journal.old.events + journal.old.spare }
{
    if let Some(why) = compare_refusal(plant, config, v, u) {
        return Err(why);
    }
    match difference(plant, config, journal, v, u)? {
        Some(track) => Err(Refusal::NotIdentical { track }),
        None => Ok(()),
    }
}
