//! Reads that a move begins with: a server that goes off at one is told to the journal.

ghost use Rattle.std.specs.Prelude.{◌≡◌, ℕ, ◌<◌, ◌≤◌, ◌+◌, ◌++◌, ◌∷◌, [], true, false, length, None, Some, IsSome, IfOk, OnOk, OnErr, is_err};
ghost use Rattle.dr_logic.specs.Counts.{Counted};
ghost use Rattle.dr_plant.specs.State.{PlantState};
ghost use Rattle.dr_config.specs.Table.{StandsFor, place_of};
ghost use Rattle.dr_model.specs.declared.event.Event.{Event};
ghost use Rattle.dr_model.specs.ReadStops.{GoesOff};
ghost use Rattle.dr_model.specs.Refusals.{stopped};
ghost use Rattle.dr_volume.specs.Opened.{IsGate};
ghost use Rattle.dr_volume.specs.Update.{IsAsBefore};
ghost use Rattle.dr_volume.specs.View.{Rest, volume_seen, track_seen};
ghost use Rattle.dr_moves.specs.Here.{world_seen, refusal_of, armed_in, IsAtRest};
ghost use Rattle.dr_moves.specs.Ready.{StandsReady};

use crate::place::server_of;
use dr_config::Config;
use dr_ids::{Refusal, VolumeId};
use dr_model::{Event, Journal};
use dr_plant::{Block, Plant};
use dr_volume::{Gate, open_gate, read_track};

/// Tells that the server of a volume went off by itself.
pub(crate) fn gone_off(config: &Config, journal: &mut Journal, v: VolumeId) -> Refusal
    requires defined { IsSome (place_of config.now v.0) }
    requires room { 1 ≤ journal.old.spare }
    ensures refusal { (s : PlantState) → result ≡ stopped (volume_seen s config.now v.0).server }
    ensures known { (s : PlantState) → (volume_seen s config.now v.0).server < 8 }
    ensures events { (s : PlantState) → journal.new.events ≡ journal.old.events ++ Event.Stopped (volume_seen s config.now v.0).server 0 ∷ [] }
    ensures room { journal.old.spare ≡ journal.new.spare + 1 }
    ensures spare { length journal.new.events + journal.new.spare ≡ length journal.old.events + journal.old.spare }
{
    let server = server_of(config, v);
    journal.push(Event::Stopped {
        server: server.0,
        write: 0,
    });
    Refusal::Stopped { server }
}

/// Reads the gate of a volume that stands ready. Fails where the server goes off at the read.
pub(crate) fn open_told<P: Plant>(
    plant: &mut P,
    config: &Config,
    journal: &mut Journal,
    v: VolumeId,
) -> Result<Gate, Refusal>
    requires ready { StandsReady (P.state plant.old) config.now v.0 }
    requires room { 1 ≤ journal.old.spare }
    ensures gate { IfOk result (λ g. IsGate (P.state plant.old) config.now v.0 g) }
    ensures passed { OnOk result (P.state plant.new ≡ P.state plant.old) }
    ensures silent { OnOk result (journal.new ≡ journal.old) }
    ensures gone { OnErr result ((r : Rest) → GoesOff (armed_in (P.state plant.old)) (world_seen (P.state plant.new) config.now r journal.new.events) (refusal_of result) (world_seen (P.state plant.old) config.now r journal.old.events)) }
    ensures refused { OnErr result (refusal_of result ≡ Some (stopped (volume_seen (P.state plant.old) config.now v.0).server)) }
    ensures same { (u : ℕ) → IsAsBefore (P.state plant.old) (P.state plant.new) config.now u }
    ensures stands { StandsFor config.now (P.state plant.new) }
    ensures off { OnErr result ((P.state plant.new).on (volume_seen (P.state plant.old) config.now v.0).server ≡ false) }
    ensures unarmed { (q : ℕ) → (P.state plant.old).read_fuse q ≡ None → (P.state plant.new).read_fuse q ≡ None }
    ensures faults { Counted (is_err result) (P.state plant.old).faults (P.state plant.new).faults }
    ensures room { journal.old.spare ≤ journal.new.spare + 1 }
    ensures spare { length journal.new.events + journal.new.spare ≡ length journal.old.events + journal.old.spare }
{
    match open_gate(plant, config, v) {
        Ok(gate) => Ok(gate),
        Err(_) => Err(gone_off(config, journal, v)),
    }
}

/// Reads a track of a volume whose server is on. Fails where the server goes off at the read; then `into` is as before.
pub fn read_told<P: Plant>(
    plant: &mut P,
    config: &Config,
    journal: &mut Journal,
    v: VolumeId,
    t: u16,
    into: &mut Block,
) -> Result<(), Refusal>
    requires rest { IsAtRest (P.state plant.old) config.now }
    requires defined { IsSome (place_of config.now v.0) }
    requires running { (P.state plant.old).on (volume_seen (P.state plant.old) config.now v.0).server ≡ true }
    requires within { t < (volume_seen (P.state plant.old) config.now v.0).tracks }
    requires room { 1 ≤ journal.old.spare }
    ensures bytes { OnOk result (into.new ≡ track_seen (P.state plant.old) config.now v.0 t) }
    ensures kept { OnErr result (into.new ≡ into.old) }
    ensures passed { OnOk result (P.state plant.new ≡ P.state plant.old) }
    ensures silent { OnOk result (journal.new ≡ journal.old) }
    ensures gone { OnErr result ((r : Rest) → GoesOff (armed_in (P.state plant.old)) (world_seen (P.state plant.new) config.now r journal.new.events) (refusal_of result) (world_seen (P.state plant.old) config.now r journal.old.events)) }
    ensures refused { OnErr result (refusal_of result ≡ Some (stopped (volume_seen (P.state plant.old) config.now v.0).server)) }
    ensures same { (u : ℕ) → IsAsBefore (P.state plant.old) (P.state plant.new) config.now u }
    ensures rest { IsAtRest (P.state plant.new) config.now }
    ensures unarmed { (q : ℕ) → (P.state plant.old).read_fuse q ≡ None → (P.state plant.new).read_fuse q ≡ None }
    ensures faults { Counted (is_err result) (P.state plant.old).faults (P.state plant.new).faults }
    ensures room { journal.old.spare ≤ journal.new.spare + 1 }
    ensures spare { length journal.new.events + journal.new.spare ≡ length journal.old.events + journal.old.spare }
{
    match read_track(plant, config, v, t, into) {
        Ok(()) => Ok(()),
        Err(_) => Err(gone_off(config, journal, v)),
    }
}
