//! Freeze and thaw.

ghost use Rattle.std.specs.Prelude.{◌≡◌, ℕ, ◌≤◌, ◌+◌, ◌++◌, [], ◌∷◌, false, length, None, IsSome, OnOk, OnErr};
ghost use Rattle.dr_logic.specs.Counts.{Counted};
ghost use Rattle.dr_config.specs.Rules.{without_path_between};
ghost use Rattle.dr_config.specs.Table.{lss_owner};
ghost use Rattle.dr_model.specs.declared.event.Event.{Event};
ghost use Rattle.dr_model.specs.ReadStops.{Ends};
ghost use Rattle.dr_model.specs.WriteEntries.{freeze_entries, thaw_entries};
ghost use Rattle.dr_volume.specs.View.{Rest, ids_of};
ghost use Rattle.dr_moves.specs.Checks.{is_stop};
ghost use Rattle.dr_moves.specs.Fit.{RelationsFit};
ghost use Rattle.dr_moves.specs.Here.{world_seen, refusal_of, armed_in, IsAtRest};
ghost use Rattle.dr_freeze.specs.Changes.{AllFrozen, AllThawed};
ghost use Rattle.dr_freeze.specs.Checks.{owner_in, freeze_checks, thaw_checks};

use crate::changes::Change;
use crate::checks::{freeze_refusal, thaw_refusal};
use crate::passing::change_all;
use dr_config::Config;
use dr_ids::{Lss, Refusal};
use dr_model::Journal;
use dr_moves::{Act, Nothing, perform};
use dr_plant::Plant;

/// The path is removed, and the journal is told that the freeze ended.
fn end_freeze(config: &mut Config, journal: &mut Journal, l: Lss, m: Lss)
    requires room { 1 ≤ journal.old.spare }
    ensures removed { config.new ≡ without_path_between config.old l.0 m.0 }
    ensures events { journal.new.events ≡ journal.old.events ++ Event.Frozen l.0 m.0 ∷ [] }
    ensures room { journal.old.spare ≡ journal.new.spare + 1 }
    ensures spare { length journal.new.events + journal.new.spare ≡ length journal.old.events + journal.old.spare }
{
    perform(journal, config, &Act::EndFreeze { l, m });
}

/// The journal is told that the thaw ended.
fn end_thaw(journal: &mut Journal, l: Lss, m: Lss)
    requires room { 1 ≤ journal.old.spare }
    ensures events { journal.new.events ≡ journal.old.events ++ Event.Thawed l.0 m.0 ∷ [] }
    ensures room { journal.old.spare ≡ journal.new.spare + 1 }
    ensures spare { length journal.new.events + journal.new.spare ≡ length journal.old.events + journal.old.spare }
{
    perform(journal, &mut Nothing, &Act::EndThaw { l, m });
}

/// Freezes the pairs from logical subsystem l, which has a volume, to m: each primary in l with its secondary in m is
/// suspended and long busy, in order of definition, and then the path from l to m is removed. Refused where no path goes from
/// l to m, or else where the server of l is off; then nothing has changed. Fails too where a server stops in a move or goes
/// off at a read; what was done by then stays, and so does the path. The journal needs room for two events for each volume and
/// two more.
pub fn freeze<P: Plant>(
    plant: &mut P,
    config: &mut Config,
    journal: &mut Journal,
    l: Lss,
    m: Lss,
) -> Result<(), Refusal>
    requires rest { IsAtRest (P.state plant.old) config.old }
    requires fit { RelationsFit (P.state plant.old) config.old }
    requires owned { IsSome (lss_owner config.old l.0) }
    requires room { length config.old.volumes + length config.old.volumes + 2 ≤ journal.old.spare }
    ensures carried { (r : Rest) → Ends (armed_in (P.state plant.old)) (world_seen (P.state plant.new) config.new r journal.new.events) (refusal_of result) (world_seen (P.state plant.old) config.old r journal.old.events) (freeze_checks (owner_in config.old l.0) l.0 m.0 ++ freeze_entries (ids_of config.old.volumes) l.0 m.0) }
    ensures unchanged { is_stop (refusal_of result) ≡ false → OnErr result ((P.state plant.new ≡ P.state plant.old) × (journal.new ≡ journal.old)) }
    ensures rest { IsAtRest (P.state plant.new) config.new }
    ensures fit { RelationsFit (P.state plant.new) config.new }
    ensures unarmed { (q : ℕ) → (P.state plant.old).read_fuse q ≡ None → (P.state plant.new).read_fuse q ≡ None }
    ensures faults { Counted (is_stop (refusal_of result)) (P.state plant.old).faults (P.state plant.new).faults }
    ensures frozen { OnOk result (AllFrozen (P.state plant.old) config.old (P.state plant.new) config.new l.0 m.0) }
    ensures removed { OnOk result (config.new ≡ without_path_between config.old l.0 m.0) }
    ensures same { OnErr result (config.new ≡ config.old) }
    ensures room { journal.old.spare ≤ journal.new.spare + (length config.old.volumes + length config.old.volumes + 1) }
    ensures spare { length journal.new.events + journal.new.spare ≡ length journal.old.events + journal.old.spare }
{
    if let Some(why) = freeze_refusal(plant, config, l, m) {
        return Err(why);
    }
    match change_all(plant, config, journal, Change::Freeze, l, m) {
        Ok(()) => {
            end_freeze(config, journal, l, m);
            Ok(())
        }
        Err(why) => Err(why),
    }
}

/// Thaws the pairs from logical subsystem l, which has a volume, to m: each primary in l with its secondary in m that is long
/// busy is so no more, in order of definition. Refused where the server of l is off; then nothing has changed. Fails too where
/// a server stops in a move or goes off at a read; what was done by then stays. The journal needs room for two events for
/// each volume and two more.
pub fn thaw<P: Plant>(
    plant: &mut P,
    config: &Config,
    journal: &mut Journal,
    l: Lss,
    m: Lss,
) -> Result<(), Refusal>
    requires rest { IsAtRest (P.state plant.old) config.now }
    requires fit { RelationsFit (P.state plant.old) config.now }
    requires owned { IsSome (lss_owner config.now l.0) }
    requires room { length config.now.volumes + length config.now.volumes + 2 ≤ journal.old.spare }
    ensures carried { (r : Rest) → Ends (armed_in (P.state plant.old)) (world_seen (P.state plant.new) config.now r journal.new.events) (refusal_of result) (world_seen (P.state plant.old) config.now r journal.old.events) (thaw_checks (owner_in config.now l.0) ++ thaw_entries (ids_of config.now.volumes) l.0 m.0) }
    ensures unchanged { is_stop (refusal_of result) ≡ false → OnErr result ((P.state plant.new ≡ P.state plant.old) × (journal.new ≡ journal.old)) }
    ensures rest { IsAtRest (P.state plant.new) config.now }
    ensures fit { RelationsFit (P.state plant.new) config.now }
    ensures unarmed { (q : ℕ) → (P.state plant.old).read_fuse q ≡ None → (P.state plant.new).read_fuse q ≡ None }
    ensures faults { Counted (is_stop (refusal_of result)) (P.state plant.old).faults (P.state plant.new).faults }
    ensures thawed { OnOk result (AllThawed (P.state plant.old) (P.state plant.new) config.now l.0 m.0) }
    ensures room { journal.old.spare ≤ journal.new.spare + (length config.now.volumes + length config.now.volumes + 1) }
    ensures spare { length journal.new.events + journal.new.spare ≡ length journal.old.events + journal.old.spare }
{
    if let Some(why) = thaw_refusal(plant, config, l) {
        return Err(why);
    }
    match change_all(plant, config, journal, Change::Thaw, l, m) {
        Ok(()) => {
            end_thaw(journal, l, m);
            Ok(())
        }
        Err(why) => Err(why),
    }
}
