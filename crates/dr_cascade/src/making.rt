//! Making a cascaded volume.

ghost use Rattle.std.specs.Prelude.{◌≡◌, ℕ, ◌≤◌, ◌+◌, true, false, if◌then◌else◌, length, None, IsSome, OnOk, OnErr};
ghost use Rattle.dr_logic.specs.Counts.{Counted};
ghost use Rattle.dr_config.specs.Table.{place_of};
ghost use Rattle.dr_model.specs.declared.state.Part.TheVariants as part;
ghost use Rattle.dr_model.specs.PairEntries.{make_entries, first_differing};
ghost use Rattle.dr_model.specs.ReadStops.{Ends};
ghost use Rattle.dr_volume.specs.View.{Rest, volume_seen, track_seen};
ghost use Rattle.dr_moves.specs.Checks.{is_stop};
ghost use Rattle.dr_moves.specs.Fit.{RelationsFit};
ghost use Rattle.dr_moves.specs.Here.{world_seen, refusal_of, armed_in, IsAtRest};
ghost use Rattle.dr_gcopy.specs.Steps.{BothAlone};

use dr_config::Config;
use dr_gcopy::{CopyKind, make_as};
use dr_ids::{Refusal, VolumeId};
use dr_model::Journal;
use dr_plant::Plant;

/// Makes Metro Mirror secondary a the Global Copy primary of b, with all tracks of a to be copied, or none; the caller knows both
/// volumes. Refused, in this order, where the server of a is off; where b can't be reached from a (no path, its server off, the link
/// down); where both are on one server, or their sizes differ; where a is a primary, or no Metro Mirror secondary of another volume than
/// b, or b is a primary or the secondary of another; where a or b is a FlashCopy target, or b stands in a revertible or reversing
/// relationship; and, where no track is to be copied, at the first track in which they differ. Fails too where a server stops in a move
/// or goes off at a read; what was done by then stays. The journal needs room for three events.
pub fn make_cascade<P: Plant>(
    plant: &mut P,
    config: &Config,
    journal: &mut Journal,
    a: VolumeId,
    b: VolumeId,
    full: bool,
) -> Result<(), Refusal>
    requires rest { IsAtRest (P.state plant.old) config.now }
    requires fit { RelationsFit (P.state plant.old) config.now }
    requires primary { IsSome (place_of config.now a.0) }
    requires secondary { IsSome (place_of config.now b.0) }
    requires room { 3 ≤ journal.old.spare }
    ensures carried { (r : Rest) → Ends (armed_in (P.state plant.old)) (world_seen (P.state plant.new) config.now r journal.new.events) (refusal_of result) (world_seen (P.state plant.old) config.now r journal.old.events)
        (make_entries (world_seen (P.state plant.old) config.now r journal.old.events).control a.0 b.0 part.Global true full (if full then None else first_differing (track_seen (P.state plant.old) config.now) (volume_seen (P.state plant.old) config.now a.0).tracks a.0 b.0)) }
    ensures unchanged { is_stop (refusal_of result) ≡ false → OnErr result ((P.state plant.new ≡ P.state plant.old) × (journal.new ≡ journal.old)) }
    ensures rest { IsAtRest (P.state plant.new) config.now }
    ensures fit { RelationsFit (P.state plant.new) config.now }
    ensures unarmed { (q : ℕ) → (P.state plant.old).read_fuse q ≡ None → (P.state plant.new).read_fuse q ≡ None }
    ensures faults { Counted (is_stop (refusal_of result)) (P.state plant.old).faults (P.state plant.new).faults }
    ensures others { BothAlone (P.state plant.old) (P.state plant.new) config.now a.0 b.0 }
    ensures on { OnOk result ((P.state plant.new).on ≡ (P.state plant.old).on) }
    ensures room { journal.old.spare ≤ journal.new.spare + 3 }
    ensures spare { length journal.new.events + journal.new.spare ≡ length journal.old.events + journal.old.spare }
{
    make_as(plant, config, journal, a, b, CopyKind::Global, true, full)
}
