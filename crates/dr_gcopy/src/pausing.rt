//! Pausing a pair, and letting it go on.

ghost use Rattle.std.specs.Prelude.{◌≡◌, ℕ, ◌≤◌, ◌+◌, false, length, None, IsSome, OnOk, OnErr};
ghost use Rattle.dr_logic.specs.Counts.{Counted};
ghost use Rattle.dr_config.specs.Table.{place_of};
ghost use Rattle.dr_model.specs.PairEntries.{pause_entries, resume_entries};
ghost use Rattle.dr_model.specs.ReadStops.{Ends};
ghost use Rattle.dr_volume.specs.View.{Rest};
ghost use Rattle.dr_moves.specs.Checks.{is_stop};
ghost use Rattle.dr_moves.specs.Fit.{RelationsFit};
ghost use Rattle.dr_moves.specs.Here.{world_seen, refusal_of, armed_in, IsAtRest};
ghost use Rattle.dr_gcopy.specs.Kinds.{part_of};
ghost use Rattle.dr_gcopy.specs.Steps.{BothAlone};

use crate::both::{Command, carry_both};
use crate::checks::{pause_refusal, resume_refusal};
use crate::kinds::{CopyKind, part_of};
use dr_config::Config;
use dr_ids::{Refusal, VolumeId};
use dr_model::Journal;
use dr_plant::Plant;

/// Pauses the pair of a and b; the caller knows both volumes. Primary a is suspended, and b too, where it can be reached
/// from a and is its secondary. Refused, in this order, where the server of a is off, or a is no primary of b, or a Suspended
/// one. Fails too where a server stops in a move or goes off at a read; what was done by then stays. The journal needs room
/// for three events.
pub fn pause<P: Plant>(
    plant: &mut P,
    config: &Config,
    journal: &mut Journal,
    a: VolumeId,
    b: VolumeId,
) -> Result<(), Refusal>
    requires rest { IsAtRest (P.state plant.old) config.now }
    requires fit { RelationsFit (P.state plant.old) config.now }
    requires primary { IsSome (place_of config.now a.0) }
    requires secondary { IsSome (place_of config.now b.0) }
    requires room { 3 ≤ journal.old.spare }
    ensures carried { (r : Rest) → Ends (armed_in (P.state plant.old)) (world_seen (P.state plant.new) config.now r journal.new.events) (refusal_of result) (world_seen (P.state plant.old) config.now r journal.old.events)
        (pause_entries (world_seen (P.state plant.old) config.now r journal.old.events).control a.0 b.0) }
    ensures unchanged { is_stop (refusal_of result) ≡ false → OnErr result ((P.state plant.new ≡ P.state plant.old) × (journal.new ≡ journal.old)) }
    ensures rest { IsAtRest (P.state plant.new) config.now }
    ensures fit { RelationsFit (P.state plant.new) config.now }
    ensures unarmed { (q : ℕ) → (P.state plant.old).read_fuse q ≡ None → (P.state plant.new).read_fuse q ≡ None }
    ensures faults { Counted (is_stop (refusal_of result)) (P.state plant.old).faults (P.state plant.new).faults }
    ensures others { BothAlone (P.state plant.old) (P.state plant.new) config.now a.0 b.0 }
    ensures on { OnOk result ((P.state plant.new).on ≡ (P.state plant.old).on) }
    ensures room { journal.old.spare ≤ journal.new.spare + 3 }
    ensures spare { length journal.new.events + journal.new.spare ≡ length journal.old.events + journal.old.spare }
{
    if let Some(why) = pause_refusal(plant, config, a, b) {
        return Err(why);
    }
    carry_both(plant, config, journal, a, b, Command::Pause)
}

/// Lets a Suspended pair of that kind of a and b go on; the caller knows both volumes. It is Full Duplex where it is a Metro
/// Mirror and no track of a is out of sync, else Copy Pending. Refused, in this order, where the server of a is off, a is no
/// Suspended primary of b of that kind, b can't be reached from a (no path, its server off, the link down), or b isn't the
/// secondary of a. Fails too where a server stops in a move or goes off at a read; what was done by then stays. The journal
/// needs room for three events.
pub fn resume<P: Plant>(
    plant: &mut P,
    config: &Config,
    journal: &mut Journal,
    a: VolumeId,
    b: VolumeId,
    kind: CopyKind,
) -> Result<(), Refusal>
    requires rest { IsAtRest (P.state plant.old) config.now }
    requires fit { RelationsFit (P.state plant.old) config.now }
    requires primary { IsSome (place_of config.now a.0) }
    requires secondary { IsSome (place_of config.now b.0) }
    requires room { 3 ≤ journal.old.spare }
    ensures carried { (r : Rest) → Ends (armed_in (P.state plant.old)) (world_seen (P.state plant.new) config.now r journal.new.events) (refusal_of result) (world_seen (P.state plant.old) config.now r journal.old.events)
        (resume_entries (world_seen (P.state plant.old) config.now r journal.old.events).control a.0 b.0 (part_of kind)) }
    ensures unchanged { is_stop (refusal_of result) ≡ false → OnErr result ((P.state plant.new ≡ P.state plant.old) × (journal.new ≡ journal.old)) }
    ensures rest { IsAtRest (P.state plant.new) config.now }
    ensures fit { RelationsFit (P.state plant.new) config.now }
    ensures unarmed { (q : ℕ) → (P.state plant.old).read_fuse q ≡ None → (P.state plant.new).read_fuse q ≡ None }
    ensures faults { Counted (is_stop (refusal_of result)) (P.state plant.old).faults (P.state plant.new).faults }
    ensures others { BothAlone (P.state plant.old) (P.state plant.new) config.now a.0 b.0 }
    ensures on { OnOk result ((P.state plant.new).on ≡ (P.state plant.old).on) }
    ensures room { journal.old.spare ≤ journal.new.spare + 3 }
    ensures spare { length journal.new.events + journal.new.spare ≡ length journal.old.events + journal.old.spare }
{
    if let Some(why) = resume_refusal(plant, config, a, b, part_of(kind)) {
        return Err(why);
    }
    carry_both(plant, config, journal, a, b, Command::Resume)
}
