//! What the other targets of a source keep before a target gives a track back.

ghost use Rattle.std.specs.Prelude.{◌≡◌, ℕ, ◌<◌, ◌≤◌, ◌+◌, true, false, length, None, Some, OnOk, OnErr, is_err};
ghost use Rattle.dr_logic.specs.Counts.{Counted};
ghost use Rattle.dr_model.specs.Entries.{copies_from};
ghost use Rattle.dr_model.specs.Refusals.{stopped};
ghost use Rattle.dr_model.specs.Relations as relations;
ghost use Rattle.dr_volume.specs.Update.{IsAsBefore};
ghost use Rattle.dr_volume.specs.View.{Rest, volume_seen, ids_of};
ghost use Rattle.dr_moves.specs.Fit.{RelationsFit};
ghost use Rattle.dr_moves.specs.Here.{world_seen, refusal_of, armed_in, IsAtRest};
ghost use Rattle.dr_moves.specs.Turns.{Leads, Fails};
ghost use Rattle.dr_incr.specs.Steps.{keeps_of};

use dr_config::Config;
use dr_flash::keep_on;
use dr_ids::{Refusal, VolumeId};
use dr_model::Journal;
use dr_plant::Plant;

/// Before track k of s, the lowest that its target t holds, comes back from t, which is restored, the other targets of s
/// keep it.
pub(crate) fn keep_others<P: Plant>(
    plant: &mut P,
    config: &Config,
    journal: &mut Journal,
    s: VolumeId,
    k: u16,
    t: VolumeId,
) -> Result<(), Refusal>
    requires rest { IsAtRest (P.state plant.old) config.now }
    requires fit { RelationsFit (P.state plant.old) config.now }
    requires running { (P.state plant.old).on (volume_seen (P.state plant.old) config.now s.0).server ≡ true }
    requires within { k < (volume_seen (P.state plant.old) config.now s.0).tracks }
    requires plain { (volume_seen (P.state plant.old) config.now s.0).fields.related ≡ false }
    requires reversing { (volume_seen (P.state plant.old) config.now t.0).fields.reversing ≡ true }
    requires held { relations.lowest (volume_seen (P.state plant.old) config.now t.0).tracks (volume_seen (P.state plant.old) config.now t.0).fields.own ≡ Some k }
    requires room { length config.now.volumes + 1 ≤ journal.old.spare }
    ensures leads { OnOk result ((r : Rest) → Leads (world_seen (P.state plant.old) config.now r journal.old.events) (keeps_of (ids_of config.now.volumes) s.0 t.0) (world_seen (P.state plant.new) config.now r journal.new.events)) }
    ensures fails { OnErr result ((r : Rest) → Fails (armed_in (P.state plant.old)) (world_seen (P.state plant.old) config.now r journal.old.events) (keeps_of (ids_of config.now.volumes) s.0 t.0) (world_seen (P.state plant.new) config.now r journal.new.events) (refusal_of result)) }
    ensures refused { OnErr result (refusal_of result ≡ Some (stopped (volume_seen (P.state plant.old) config.now s.0).server)) }
    ensures rest { IsAtRest (P.state plant.new) config.now }
    ensures fit { RelationsFit (P.state plant.new) config.now }
    ensures unarmed { (q : ℕ) → (P.state plant.old).read_fuse q ≡ None → (P.state plant.new).read_fuse q ≡ None }
    ensures faults { Counted (is_err result) (P.state plant.old).faults (P.state plant.new).faults }
    ensures others { (q : ℕ) → copies_from s.0 (volume_seen (P.state plant.old) config.now q).fields ≡ false → IsAsBefore (P.state plant.old) (P.state plant.new) config.now q }
    ensures on { OnOk result ((P.state plant.new).on ≡ (P.state plant.old).on) }
    ensures aside { IsAsBefore (P.state plant.old) (P.state plant.new) config.now t.0 }
    ensures room { journal.old.spare ≤ journal.new.spare + (length config.now.volumes + 1) }
    ensures room_left { OnOk result (journal.old.spare ≤ journal.new.spare + length config.now.volumes) }
    ensures spare { length journal.new.events + journal.new.spare ≡ length journal.old.events + journal.old.spare }
{
    for place in 0..config.volumes() {
        let u = config.volume_at(place).unwrap();
        keep_on(plant, config, journal, s, k, u, place)?;
    }
    Ok(())
}
