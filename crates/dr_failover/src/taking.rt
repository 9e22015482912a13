//! A secondary is taken over by hand.

ghost use Rattle.std.specs.Prelude.{◌≡◌, ℕ, ◌≤◌, ◌+◌, false, length, None, IsSome, OnOk, OnErr};
ghost use Rattle.dr_logic.specs.Counts.{Counted};
ghost use Rattle.dr_config.specs.Table.{place_of};
ghost use Rattle.dr_model.specs.Laws.{Sound};
ghost use Rattle.dr_model.specs.PairEntries.{failover_entries};
ghost use Rattle.dr_model.specs.Pairs.{is_cascaded};
ghost use Rattle.dr_model.specs.ReadStops.{Ends};
ghost use Rattle.dr_volume.specs.Update.{OthersStay};
ghost use Rattle.dr_volume.specs.View.{Rest, volume_seen};
ghost use Rattle.dr_moves.specs.Checks.{is_stop};
ghost use Rattle.dr_moves.specs.Fit.{RelationsFit};
ghost use Rattle.dr_moves.specs.Here.{world_seen, refusal_of, armed_in, IsAtRest};
ghost use Rattle.dr_gcopy.specs.Kinds.{part_of};
ghost use Rattle.dr_failover.specs.Outcomes.{IsTakenFrom, SameTracks};

use crate::checks::failover_refusal;
use dr_config::Config;
use dr_gcopy::{CopyKind, part_of, take_over};
use dr_ids::{Refusal, VolumeId};
use dr_model::Journal;
use dr_plant::Plant;

/// Secondary b of a, of that kind, becomes a Suspended primary of a, with no track out of sync; the caller knows b, which isn't cascaded, and a isn't asked.
/// Refused, in this order, where the server of b is off, or b is no secondary of a of that kind. Fails too where the server stops in
/// the move or goes off at a read. The journal needs room for two events.
pub fn failover<P: Plant>(
    plant: &mut P,
    config: &Config,
    journal: &mut Journal,
    b: VolumeId,
    a: VolumeId,
    kind: CopyKind,
) -> Result<(), Refusal>
    requires rest { IsAtRest (P.state plant.old) config.now }
    requires fit { RelationsFit (P.state plant.old) config.now }
    requires defined { IsSome (place_of config.now b.0) }
    requires uncascaded { is_cascaded (volume_seen (P.state plant.old) config.now b.0).fields ≡ false }
    requires room { 2 ≤ journal.old.spare }
    ensures carried { (r : Rest) → Ends (armed_in (P.state plant.old)) (world_seen (P.state plant.new) config.now r journal.new.events) (refusal_of result) (world_seen (P.state plant.old) config.now r journal.old.events)
        (failover_entries (world_seen (P.state plant.old) config.now r journal.old.events).control b.0 a.0 (part_of kind)) }
    ensures unchanged { is_stop (refusal_of result) ≡ false → OnErr result ((P.state plant.new ≡ P.state plant.old) × (journal.new ≡ journal.old)) }
    ensures taken { OnOk result (IsTakenFrom a.0 (part_of kind) (volume_seen (P.state plant.new) config.now b.0).fields) }
    ensures tracks { (r : Rest) → Sound (world_seen (P.state plant.old) config.now r journal.old.events) → SameTracks (P.state plant.old) (P.state plant.new) config.now }
    ensures others { OthersStay (P.state plant.old) (P.state plant.new) config.now b.0 }
    ensures rest { IsAtRest (P.state plant.new) config.now }
    ensures fit { RelationsFit (P.state plant.new) config.now }
    ensures unarmed { (q : ℕ) → (P.state plant.old).read_fuse q ≡ None → (P.state plant.new).read_fuse q ≡ None }
    ensures faults { Counted (is_stop (refusal_of result)) (P.state plant.old).faults (P.state plant.new).faults }
    ensures on { OnOk result ((P.state plant.new).on ≡ (P.state plant.old).on) }
    ensures room { journal.old.spare ≤ journal.new.spare + 2 }
    ensures spare { length journal.new.events + journal.new.spare ≡ length journal.old.events + journal.old.spare }
{
    if let Some(why) = failover_refusal(plant, config, b, a, part_of(kind)) {
        return Err(why);
    }
    take_over(plant, config, journal, b)
}
