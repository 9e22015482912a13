//! A staged track is put in its place, and stays staged, or is staged no more.

ghost use Rattle.std.specs.Prelude.{◌≡◌, ℕ, ◌≤◌, ◌+◌, ◌⊎◌, true, false, length, None, Some, is_some, IsSome, IfOk, OnOk, OnErr, is_err};
ghost use Rattle.dr_logic.specs.Counts.{Counted};
ghost use Rattle.dr_config.specs.Table.{StandsFor, place_of};
ghost use Rattle.dr_model.specs.Carry.{Entry, Do, Redo};
ghost use Rattle.dr_model.specs.Plans.{destage_entries};
ghost use Rattle.dr_model.specs.Refusals.{stopped};
ghost use Rattle.dr_volume.specs.Update.{IsAsBefore, IsMovedKeeping, IsDestaged, OthersStay};
ghost use Rattle.dr_volume.specs.View.{Rest, volume_seen};
ghost use Rattle.dr_moves.specs.Here.{world_seen, refusal_of, armed_in};
ghost use Rattle.dr_moves.specs.Made.{IsAt};
ghost use Rattle.dr_moves.specs.Ready.{Stayed};
ghost use Rattle.dr_moves.specs.Turns.{Advances, Halts, Leads, Fails};

use crate::reads::gone_off;
use dr_config::Config;
use dr_ids::{Refusal, VolumeId};
use dr_model::Journal;
use dr_plant::Plant;
use dr_volume::{destage, redo};

/// Writes the staged track of a volume whose server is on to its own place, where one is staged, so that the volume stands ready,
/// whatever the others do. Nothing that is read changes. Fails where the server stops in the write or goes off at the read before
/// it. The journal needs room for the stop.
pub fn place_staged<P: Plant>(
    plant: &mut P,
    config: &Config,
    journal: &mut Journal,
    v: VolumeId,
) -> Result<(), Refusal>
    requires stands { StandsFor config.now (P.state plant.old) }
    requires defined { IsSome (place_of config.now v.0) }
    requires running { (P.state plant.old).on (volume_seen (P.state plant.old) config.now v.0).server ≡ true }
    requires room { 1 ≤ journal.old.spare }
    ensures advances { OnOk result ((r : Rest) (d : Entry) → d (world_seen (P.state plant.old) config.now r journal.old.events).control ≡ Do (Redo v.0) → Advances (world_seen (P.state plant.old) config.now r journal.old.events) d (world_seen (P.state plant.new) config.now r journal.new.events)) }
    ensures halts { OnErr result ((r : Rest) (d : Entry) → d (world_seen (P.state plant.old) config.now r journal.old.events).control ≡ Do (Redo v.0) → Halts (armed_in (P.state plant.old)) (world_seen (P.state plant.old) config.now r journal.old.events) d (world_seen (P.state plant.new) config.now r journal.new.events) (refusal_of result)) }
    ensures refused { OnErr result (refusal_of result ≡ Some (stopped (volume_seen (P.state plant.old) config.now v.0).server)) }
    ensures same { (u : ℕ) → IsAsBefore (P.state plant.old) (P.state plant.new) config.now u }
    ensures silent { OnOk result (journal.new ≡ journal.old) }
    ensures stayed { Stayed (P.state plant.old) (P.state plant.new) config.now journal.old journal.new (volume_seen (P.state plant.old) config.now v.0).server 1 result }
{
    match redo(plant, config, v) {
        Ok(()) => Ok(()),
        Err(_) => Err(gone_off(config, journal, v)),
    }
}

/// Writes the staged track of a volume whose server is on to its own place, where one is staged, and then stages none by a move
/// that changes no field: whether one was staged. Fails where the server stops in one of these writes or goes off at the read
/// before them. The journal needs room for the stop, which is all that it is told.
pub fn destage_told<P: Plant>(
    plant: &mut P,
    config: &Config,
    journal: &mut Journal,
    v: VolumeId,
) -> Result<bool, Refusal>
    requires at { IsAt (P.state plant.old) config.now }
    requires defined { IsSome (place_of config.now v.0) }
    requires running { (P.state plant.old).on (volume_seen (P.state plant.old) config.now v.0).server ≡ true }
    requires room { 1 ≤ journal.old.spare }
    ensures answer { IfOk result (λ there. there ≡ is_some (volume_seen (P.state plant.old) config.now v.0).staged) }
    ensures leads { OnOk result ((r : Rest) → Leads (world_seen (P.state plant.old) config.now r journal.old.events) (destage_entries (volume_seen (P.state plant.old) config.now v.0).staged v.0) (world_seen (P.state plant.new) config.now r journal.new.events)) }
    ensures fails { OnErr result ((r : Rest) → Fails (armed_in (P.state plant.old)) (world_seen (P.state plant.old) config.now r journal.old.events) (destage_entries (volume_seen (P.state plant.old) config.now v.0).staged v.0) (world_seen (P.state plant.new) config.now r journal.new.events) (refusal_of result)) }
    ensures refused { OnErr result (refusal_of result ≡ Some (stopped (volume_seen (P.state plant.old) config.now v.0).server)) }
    ensures done { IfOk result (λ there. IsDestaged there (P.state plant.old) (P.state plant.new) config.now v.0) }
    ensures old_or_new { IsAsBefore (P.state plant.old) (P.state plant.new) config.now v.0 ⊎ IsMovedKeeping false (P.state plant.old) (P.state plant.new) config.now v.0 (volume_seen (P.state plant.old) config.now v.0).fields None }
    ensures others { OthersStay (P.state plant.old) (P.state plant.new) config.now v.0 }
    ensures silent { OnOk result (journal.new ≡ journal.old) }
    ensures at { IsAt (P.state plant.new) config.now }
    ensures unarmed { (q : ℕ) → (P.state plant.old).read_fuse q ≡ None → (P.state plant.new).read_fuse q ≡ None }
    ensures faults { Counted (is_err result) (P.state plant.old).faults (P.state plant.new).faults }
    ensures on { OnOk result ((P.state plant.new).on ≡ (P.state plant.old).on) }
    ensures off { OnErr result ((P.state plant.new).on (volume_seen (P.state plant.old) config.now v.0).server ≡ false) }
    ensures room { journal.old.spare ≤ journal.new.spare + 1 }
    ensures spare { length journal.new.events + journal.new.spare ≡ length journal.old.events + journal.old.spare }
{
    match destage(plant, config, v) {
        Ok(there) => Ok(there),
        Err(_) => Err(gone_off(config, journal, v)),
    }
}
