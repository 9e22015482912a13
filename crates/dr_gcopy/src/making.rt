//! Making a pair.

ghost use Rattle.std.specs.Prelude.{◌≡◌, ℕ, ◌≤◌, ◌+◌, true, false, [], ◌∷◌, length, None, IsSome, OnOk, OnErr, if◌then◌else◌};
ghost use Rattle.dr_logic.specs.Counts.{Counted};
ghost use Rattle.dr_config.specs.Table.{place_of};
ghost use Rattle.dr_model.specs.PairEntries.{refuse_if, differs_at, first_differing, make_entries};
ghost use Rattle.dr_model.specs.ReadStops.{Ends};
ghost use Rattle.dr_volume.specs.Update.{IsAsBefore};
ghost use Rattle.dr_volume.specs.View.{Rest, volume_seen, track_seen};
ghost use Rattle.dr_moves.specs.Checks.{is_stop};
ghost use Rattle.dr_moves.specs.Fit.{RelationsFit};
ghost use Rattle.dr_moves.specs.Here.{world_seen, refusal_of, armed_in, IsAtRest};
ghost use Rattle.dr_moves.specs.Turns.{Leads, Fails};
ghost use Rattle.dr_gcopy.specs.Kinds.{part_of};
ghost use Rattle.dr_gcopy.specs.Steps.{difference_seen, BothAlone};

use crate::both::{Command, carry_both};
use crate::checks::make_refusal;
use crate::compare::difference;
use crate::kinds::{CopyKind, part_of};
use crate::parts::first_state;
use dr_config::Config;
use dr_ids::{Refusal, VolumeId};
use dr_model::Journal;
use dr_plant::Plant;

/// Looks whether two volumes are the same, where they have to be: where not all tracks are to be copied.
fn compare<P: Plant>(
    plant: &mut P,
    config: &Config,
    journal: &mut Journal,
    a: VolumeId,
    b: VolumeId,
    full: bool,
) -> Result<(), Refusal>
    requires rest { IsAtRest (P.state plant.old) config.now }
    requires fit { RelationsFit (P.state plant.old) config.now }
    requires primary { IsSome (place_of config.now a.0) }
    requires secondary { IsSome (place_of config.now b.0) }
    requires running { (P.state plant.old).on (volume_seen (P.state plant.old) config.now a.0).server ≡ true }
    requires reached { (P.state plant.old).on (volume_seen (P.state plant.old) config.now b.0).server ≡ true }
    requires size { (volume_seen (P.state plant.old) config.now a.0).tracks ≡ (volume_seen (P.state plant.old) config.now b.0).tracks }
    requires room { 1 ≤ journal.old.spare }
    ensures leads { OnOk result ((r : Rest) → Leads (world_seen (P.state plant.old) config.now r journal.old.events) (refuse_if (differs_at (difference_seen (P.state plant.old) config.now a.0 b.0 full)) ∷ []) (world_seen (P.state plant.old) config.now r journal.old.events)) }
    ensures fails { OnErr result ((r : Rest) → Fails (armed_in (P.state plant.old)) (world_seen (P.state plant.old) config.now r journal.old.events) (refuse_if (differs_at (difference_seen (P.state plant.old) config.now a.0 b.0 full)) ∷ []) (world_seen (P.state plant.new) config.now r journal.new.events) (refusal_of result)) }
    ensures passed { OnOk result (P.state plant.new ≡ P.state plant.old) }
    ensures silent { OnOk result (journal.new ≡ journal.old) }
    ensures unchanged { is_stop (refusal_of result) ≡ false → OnErr result ((P.state plant.new ≡ P.state plant.old) × (journal.new ≡ journal.old)) }
    ensures same { (u : ℕ) → IsAsBefore (P.state plant.old) (P.state plant.new) config.now u }
    ensures rest { IsAtRest (P.state plant.new) config.now }
    ensures fit { RelationsFit (P.state plant.new) config.now }
    ensures unarmed { (q : ℕ) → (P.state plant.old).read_fuse q ≡ None → (P.state plant.new).read_fuse q ≡ None }
    ensures faults { Counted (is_stop (refusal_of result)) (P.state plant.old).faults (P.state plant.new).faults }
    ensures room { journal.old.spare ≤ journal.new.spare + 1 }
    ensures spare { length journal.new.events + journal.new.spare ≡ length journal.old.events + journal.old.spare }
{
    if full {
        return Ok(());
    }
    match difference(plant, config, journal, a, b)? {
        Some(track) => Err(Refusal::NotIdentical { track }),
        None => Ok(()),
    }
}

/// Makes a and b a pair of that kind, with all tracks of a to be copied, or none; the caller knows both volumes. Refused, in
/// this order, where the server of a is off; where b can't be reached from a (no path, its server off, the link down); where
/// both are on one server, or their sizes differ; where a has a part in a pair, or b is a primary or the secondary of another;
/// where a or b is a FlashCopy target, or b stands in a revertible or reversing relationship; and, where no track is to be
/// copied, at the first track in which they differ. Fails too where a server stops in a move or goes off at a read; what was
/// done by then stays. The journal needs room for three events.
pub fn make_pair<P: Plant>(
    plant: &mut P,
    config: &Config,
    journal: &mut Journal,
    a: VolumeId,
    b: VolumeId,
    kind: CopyKind,
    full: bool,
) -> Result<(), Refusal>
    requires rest { IsAtRest (P.state plant.old) config.now }
    requires fit { RelationsFit (P.state plant.old) config.now }
    requires primary { IsSome (place_of config.now a.0) }
    requires secondary { IsSome (place_of config.now b.0) }
    requires room { 3 ≤ journal.old.spare }
    ensures carried { (r : Rest) → Ends (armed_in (P.state plant.old)) (world_seen (P.state plant.new) config.now r journal.new.events) (refusal_of result) (world_seen (P.state plant.old) config.now r journal.old.events)
        (make_entries (world_seen (P.state plant.old) config.now r journal.old.events).control a.0 b.0 (part_of kind) false full (if full then None else first_differing (track_seen (P.state plant.old) config.now) (volume_seen (P.state plant.old) config.now a.0).tracks a.0 b.0)) }
    ensures unchanged { is_stop (refusal_of result) ≡ false → OnErr result ((P.state plant.new ≡ P.state plant.old) × (journal.new ≡ journal.old)) }
    ensures rest { IsAtRest (P.state plant.new) config.now }
    ensures fit { RelationsFit (P.state plant.new) config.now }
    ensures unarmed { (q : ℕ) → (P.state plant.old).read_fuse q ≡ None → (P.state plant.new).read_fuse q ≡ None }
    ensures faults { Counted (is_stop (refusal_of result)) (P.state plant.old).faults (P.state plant.new).faults }
    ensures others { BothAlone (P.state plant.old) (P.state plant.new) config.now a.0 b.0 }
    ensures on { OnOk result ((P.state plant.new).on ≡ (P.state plant.old).on) }
    ensures room { journal.old.spare ≤ journal.new.spare + 3 }
    ensures spare { length journal.new.events + journal.new.spare ≡ length journal.old.events + journal.old.spare }
{
    make_as(plant, config, journal, a, b, kind, false, full)
}

/// The same where a may be cascaded from then on: then, in place of having no part, it has to be a Metro Mirror secondary of another volume
/// than b, and no primary.
pub fn make_as<P: Plant>(
    plant: &mut P,
    config: &Config,
    journal: &mut Journal,
    a: VolumeId,
    b: VolumeId,
    kind: CopyKind,
    cascade: bool,
    full: bool,
) -> Result<(), Refusal>
    requires rest { IsAtRest (P.state plant.old) config.now }
    requires fit { RelationsFit (P.state plant.old) config.now }
    requires primary { IsSome (place_of config.now a.0) }
    requires secondary { IsSome (place_of config.now b.0) }
    requires room { 3 ≤ journal.old.spare }
    ensures carried { (r : Rest) → Ends (armed_in (P.state plant.old)) (world_seen (P.state plant.new) config.now r journal.new.events) (refusal_of result) (world_seen (P.state plant.old) config.now r journal.old.events)
        (make_entries (world_seen (P.state plant.old) config.now r journal.old.events).control a.0 b.0 (part_of kind) cascade full (if full then None else first_differing (track_seen (P.state plant.old) config.now) (volume_seen (P.state plant.old) config.now a.0).tracks a.0 b.0)) }
    ensures unchanged { is_stop (refusal_of result) ≡ false → OnErr result ((P.state plant.new ≡ P.state plant.old) × (journal.new ≡ journal.old)) }
    ensures rest { IsAtRest (P.state plant.new) config.now }
    ensures fit { RelationsFit (P.state plant.new) config.now }
    ensures unarmed { (q : ℕ) → (P.state plant.old).read_fuse q ≡ None → (P.state plant.new).read_fuse q ≡ None }
    ensures faults { Counted (is_stop (refusal_of result)) (P.state plant.old).faults (P.state plant.new).faults }
    ensures others { BothAlone (P.state plant.old) (P.state plant.new) config.now a.0 b.0 }
    ensures on { OnOk result ((P.state plant.new).on ≡ (P.state plant.old).on) }
    ensures room { journal.old.spare ≤ journal.new.spare + 3 }
    ensures spare { length journal.new.events + journal.new.spare ≡ length journal.old.events + journal.old.spare }
{
    if let Some(why) = make_refusal(plant, config, a, b, cascade) {
        return Err(why);
    }
    compare(plant, config, journal, a, b, full)?;
    let part = part_of(kind);
    let made = Command::Make {
        kind: part,
        state: first_state(part, full),
        full,
    };
    carry_both(plant, config, journal, a, b, made)
}
