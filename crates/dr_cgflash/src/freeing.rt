//! The end of the holds of flash sets.

ghost use Rattle.std.specs.Prelude.{◌≡◌, ℕ, ◌≤◌, ◌+◌, ◌++◌, false, length, map, None, IsSome, OnOk, OnErr, nat_eq};
ghost use Rattle.dr_logic.specs.Counts.{Counted};
ghost use Rattle.dr_config.specs.Table.{lss_owner};
ghost use Rattle.dr_model.specs.Entries.{subsystem};
ghost use Rattle.dr_model.specs.ReadStops.{Ends};
ghost use Rattle.dr_model.specs.WriteEntries.{flash_free_on};
ghost use Rattle.dr_volume.specs.Update.{IsAsBefore};
ghost use Rattle.dr_volume.specs.View.{Rest, ids_of};
ghost use Rattle.dr_moves.specs.Checks.{is_stop};
ghost use Rattle.dr_moves.specs.Fit.{RelationsFit};
ghost use Rattle.dr_moves.specs.Here.{world_seen, refusal_of, armed_in, IsAtRest};
ghost use Rattle.dr_freeze.specs.Checks.{owner_in, thaw_checks};
ghost use Rattle.dr_cgflash.specs.Freeing.{AllReleased};

use crate::passing::free_all;
use dr_config::Config;
use dr_freeze::thaw_refusal;
use dr_ids::{Lss, Refusal};
use dr_model::Journal;
use dr_plant::Plant;

/// Takes the flash holds of the volumes in logical subsystem l, which has a volume, off, in order of definition. Refused where the
/// server of l is off; then nothing has changed. Fails too where it stops in a move or goes off at a read; what was done
/// by then stays. The journal needs room for an event for each volume and one more.
pub fn unfreeze<P: Plant>(
    plant: &mut P,
    config: &Config,
    journal: &mut Journal,
    l: Lss,
) -> Result<(), Refusal>
    requires rest { IsAtRest (P.state plant.old) config.now }
    requires fit { RelationsFit (P.state plant.old) config.now }
    requires owned { IsSome (lss_owner config.now l.0) }
    requires room { length config.now.volumes + 1 ≤ journal.old.spare }
    ensures carried { (r : Rest) → Ends (armed_in (P.state plant.old)) (world_seen (P.state plant.new) config.now r journal.new.events) (refusal_of result) (world_seen (P.state plant.old) config.now r journal.old.events) (thaw_checks (owner_in config.now l.0) ++ map (flash_free_on l.0) (ids_of config.now.volumes)) }
    ensures unchanged { is_stop (refusal_of result) ≡ false → OnErr result ((P.state plant.new ≡ P.state plant.old) × (journal.new ≡ journal.old)) }
    ensures rest { IsAtRest (P.state plant.new) config.now }
    ensures fit { RelationsFit (P.state plant.new) config.now }
    ensures unarmed { (q : ℕ) → (P.state plant.old).read_fuse q ≡ None → (P.state plant.new).read_fuse q ≡ None }
    ensures faults { Counted (is_stop (refusal_of result)) (P.state plant.old).faults (P.state plant.new).faults }
    ensures released { OnOk result (AllReleased (P.state plant.new) config.now l.0) }
    ensures others { (v : ℕ) → nat_eq (subsystem v) l.0 ≡ false → IsAsBefore (P.state plant.old) (P.state plant.new) config.now v }
    ensures room { journal.old.spare ≤ journal.new.spare + (length config.now.volumes + 1) }
    ensures spare { length journal.new.events + journal.new.spare ≡ length journal.old.events + journal.old.spare }
{
    if let Some(why) = thaw_refusal(plant, config, l) {
        return Err(why);
    }
    free_all(plant, config, journal, l)
}
