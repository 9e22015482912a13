//! Ending a pair.

ghost use Rattle.std.specs.Prelude.{◌≡◌, ℕ, ◌≤◌, ◌+◌, false, length, None, IsSome, OnErr, OnOk};
ghost use Rattle.dr_logic.specs.Counts.{Counted};
ghost use Rattle.dr_config.specs.Table.{place_of};
ghost use Rattle.dr_model.specs.PairEntries.{remove_entries};
ghost use Rattle.dr_model.specs.ReadStops.{Ends};
ghost use Rattle.dr_volume.specs.View.{Rest};
ghost use Rattle.dr_moves.specs.Checks.{is_stop};
ghost use Rattle.dr_moves.specs.Fit.{RelationsFit};
ghost use Rattle.dr_moves.specs.Here.{world_seen, refusal_of, armed_in, IsAtRest};
ghost use Rattle.dr_gcopy.specs.Steps.{BothAlone};

use crate::both::{Command, carry_both};
use crate::checks::{contact_refusal, remove_refusal};
use dr_config::Config;
use dr_ids::{Refusal, VolumeId};
use dr_model::Journal;
use dr_moves::{Move, Next, act};
use dr_plant::Plant;

/// Ends the pair of a and b; the caller knows both volumes. The attempt of a stays. Where only the source is told, b stays
/// a secondary. Refused, in this order, where the server of a is off, or a is no primary of b; and then, where b is told too,
/// where the server of b is off, or the link between their servers is down. Fails too where a server stops in a move or
/// goes off at a read; what was done by then stays. The journal needs room for three events.
pub fn remove_pair<P: Plant>(
    plant: &mut P,
    config: &Config,
    journal: &mut Journal,
    a: VolumeId,
    b: VolumeId,
    source_only: bool,
) -> Result<(), Refusal>
    requires rest { IsAtRest (P.state plant.old) config.now }
    requires fit { RelationsFit (P.state plant.old) config.now }
    requires primary { IsSome (place_of config.now a.0) }
    requires secondary { IsSome (place_of config.now b.0) }
    requires room { 3 ≤ journal.old.spare }
    ensures carried { (r : Rest) → Ends (armed_in (P.state plant.old)) (world_seen (P.state plant.new) config.now r journal.new.events) (refusal_of result) (world_seen (P.state plant.old) config.now r journal.old.events)
        (remove_entries (world_seen (P.state plant.old) config.now r journal.old.events).control a.0 b.0 source_only) }
    ensures unchanged { is_stop (refusal_of result) ≡ false → OnErr result ((P.state plant.new ≡ P.state plant.old) × (journal.new ≡ journal.old)) }
    ensures rest { IsAtRest (P.state plant.new) config.now }
    ensures fit { RelationsFit (P.state plant.new) config.now }
    ensures unarmed { (q : ℕ) → (P.state plant.old).read_fuse q ≡ None → (P.state plant.new).read_fuse q ≡ None }
    ensures faults { Counted (is_stop (refusal_of result)) (P.state plant.old).faults (P.state plant.new).faults }
    ensures others { BothAlone (P.state plant.old) (P.state plant.new) config.now a.0 b.0 }
    ensures on { OnOk result ((P.state plant.new).on ≡ (P.state plant.old).on) }
    ensures room { journal.old.spare ≤ journal.new.spare + 3 }
    ensures spare { length journal.new.events + journal.new.spare ≡ length journal.old.events + journal.old.spare }
{
    if let Some(why) = remove_refusal(plant, config, a, b) {
        return Err(why);
    }
    if source_only {
        let drop = Next::Do(Move::DropPrimary { v: a });
        return act(plant, config, journal, &drop);
    }
    if let Some(why) = contact_refusal(plant, config, a, b) {
        return Err(why);
    }
    carry_both(plant, config, journal, a, b, Command::Remove)
}
