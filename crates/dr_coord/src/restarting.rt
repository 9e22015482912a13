//! A volume goes on as its server starts.

ghost use Rattle.std.specs.Prelude.{◌≡◌, ℕ, ◌≤◌, ◌+◌, false, length, None, Some, OnOk, OnErr, is_err};
ghost use Rattle.dr_logic.specs.Counts.{Counted};
ghost use Rattle.dr_config.specs.Table.{StandsFor};
ghost use Rattle.dr_model.specs.Carry.{now};
ghost use Rattle.dr_model.specs.Moves.{Restart};
ghost use Rattle.dr_model.specs.Refusals.{stopped};
ghost use Rattle.dr_model.specs.WriteEntries.{restart_on};
ghost use Rattle.dr_volume.specs.Update.{OthersStay};
ghost use Rattle.dr_volume.specs.View.{Rest, volume_seen};
ghost use Rattle.dr_moves.specs.Here.{world_seen, refusal_of, armed_in};
ghost use Rattle.dr_moves.specs.Turns.{Advances, Halts};
ghost use Rattle.dr_moves.specs.Ready.{StandsReady};

use crate::fields::must_restart;
use dr_config::Config;
use dr_ids::{Refusal, VolumeId};
use dr_model::Journal;
use dr_moves::{Move, make_ready};
use dr_plant::Plant;
use dr_volume::peek_fields;

/// Lets a volume go on, in any case.
fn go_on<P: Plant>(
    plant: &mut P,
    config: &Config,
    journal: &mut Journal,
    v: VolumeId,
) -> Result<(), Refusal>
    requires ready { StandsReady (P.state plant.old) config.now v.0 }
    requires room { 3 ≤ journal.old.spare }
    ensures advances { OnOk result ((r : Rest) → Advances (world_seen (P.state plant.old) config.now r journal.old.events) (now (Restart v.0)) (world_seen (P.state plant.new) config.now r journal.new.events)) }
    ensures halts { OnErr result ((r : Rest) → Halts (armed_in (P.state plant.old)) (world_seen (P.state plant.old) config.now r journal.old.events) (now (Restart v.0)) (world_seen (P.state plant.new) config.now r journal.new.events) (refusal_of result)) }
    ensures refused { OnErr result (refusal_of result ≡ Some (stopped (volume_seen (P.state plant.old) config.now v.0).server)) }
    ensures server { (volume_seen (P.state plant.new) config.now v.0).server ≡ (volume_seen (P.state plant.old) config.now v.0).server }
    ensures size { (volume_seen (P.state plant.new) config.now v.0).tracks ≡ (volume_seen (P.state plant.old) config.now v.0).tracks }
    ensures others { OthersStay (P.state plant.old) (P.state plant.new) config.now v.0 }
    ensures stands { StandsFor config.now (P.state plant.new) }
    ensures unarmed { (q : ℕ) → (P.state plant.old).read_fuse q ≡ None → (P.state plant.new).read_fuse q ≡ None }
    ensures faults { Counted (is_err result) (P.state plant.old).faults (P.state plant.new).faults }
    ensures on { OnOk result ((P.state plant.new).on ≡ (P.state plant.old).on) }
    ensures off { OnErr result ((P.state plant.new).on (volume_seen (P.state plant.old) config.now v.0).server ≡ false) }
    ensures room { journal.old.spare ≤ journal.new.spare + 3 }
    ensures told { OnOk result (journal.new ≡ journal.old) }
    ensures spare { length journal.new.events + journal.new.spare ≡ length journal.old.events + journal.old.spare }
{
    match make_ready(plant, config, journal, &Move::Restart { v }, None) {
        Ok(()) => Ok(()),
        Err(stop) => Err(Refusal::Stopped {
            server: stop.server,
        }),
    }
}

/// Lets a volume go on whose server starts, where it has to: one that records or is held by coordination is voided, and a
/// Metro Mirror pair that a stop left Full Duplex with a track out of sync is in Copy Pending. Nothing is told. Fails where
/// the server stops in the move or goes off at a read. The journal needs room for three events.
pub fn restart<P: Plant>(
    plant: &mut P,
    config: &Config,
    journal: &mut Journal,
    v: VolumeId,
) -> Result<(), Refusal>
    requires ready { StandsReady (P.state plant.old) config.now v.0 }
    requires room { 3 ≤ journal.old.spare }
    ensures advances { OnOk result ((r : Rest) → Advances (world_seen (P.state plant.old) config.now r journal.old.events) (restart_on (volume_seen (P.state plant.old) config.now v.0).server v.0) (world_seen (P.state plant.new) config.now r journal.new.events)) }
    ensures halts { OnErr result ((r : Rest) → Halts (armed_in (P.state plant.old)) (world_seen (P.state plant.old) config.now r journal.old.events) (restart_on (volume_seen (P.state plant.old) config.now v.0).server v.0) (world_seen (P.state plant.new) config.now r journal.new.events) (refusal_of result)) }
    ensures refused { OnErr result (refusal_of result ≡ Some (stopped (volume_seen (P.state plant.old) config.now v.0).server)) }
    ensures server { (volume_seen (P.state plant.new) config.now v.0).server ≡ (volume_seen (P.state plant.old) config.now v.0).server }
    ensures size { (volume_seen (P.state plant.new) config.now v.0).tracks ≡ (volume_seen (P.state plant.old) config.now v.0).tracks }
    ensures others { OthersStay (P.state plant.old) (P.state plant.new) config.now v.0 }
    ensures stands { StandsFor config.now (P.state plant.new) }
    ensures unarmed { (q : ℕ) → (P.state plant.old).read_fuse q ≡ None → (P.state plant.new).read_fuse q ≡ None }
    ensures faults { Counted (is_err result) (P.state plant.old).faults (P.state plant.new).faults }
    ensures on { OnOk result ((P.state plant.new).on ≡ (P.state plant.old).on) }
    ensures off { OnErr result ((P.state plant.new).on (volume_seen (P.state plant.old) config.now v.0).server ≡ false) }
    ensures room { journal.old.spare ≤ journal.new.spare + 3 }
    ensures told { OnOk result (journal.new ≡ journal.old) }
    ensures spare { length journal.new.events + journal.new.spare ≡ length journal.old.events + journal.old.spare }
{
    if !must_restart(&peek_fields(plant, config, v)) {
        return Ok(());
    }
    go_on(plant, config, journal, v)
}
