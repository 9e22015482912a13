//! A server starts.

ghost use Rattle.std.specs.Prelude.{◌≡◌, ℕ, ◌+◌, ◌<◌, ◌≤◌, Bool, true, false, [], ◌∷◌, ◌++◌, length, List, Option, Some, None, IsSome, Ok, IfOk, OnOk, OnErr, is_err};
ghost use Rattle.dr_logic.specs.Counts.{Counted};
ghost use Rattle.dr_logic.specs.Tables.{at};
ghost use Rattle.dr_ids.specs.declared.refusal.Refusal.{Refusal};
ghost use Rattle.dr_plant.specs.State.{PlantState};
ghost use Rattle.dr_config.specs.Table.{place_of};
ghost use Rattle.dr_host.specs.Here.{here};
ghost use Rattle.dr_host.specs.Writes.{landed_on, has_owner};
ghost use Rattle.dr_model.specs.Carry.{Entry};
ghost use Rattle.dr_model.specs.Control.{World};
ghost use Rattle.dr_model.specs.Messages.{started};
ghost use Rattle.dr_model.specs.Plans.{start_on, acknowledge_on};
ghost use Rattle.dr_model.specs.ReadStops.{Ends};
ghost use Rattle.dr_model.specs.Refusals.{stopped};
ghost use Rattle.dr_model.specs.WriteEntries.{redo_on, restart_on};
ghost use Rattle.dr_volume.specs.View.{Rest, with_flight};
ghost use Rattle.dr_moves.specs.Here.{world_seen, refusal_of, armed_in, IsAtRest};
ghost use Rattle.dr_moves.specs.Ready.{Stayed};
ghost use Rattle.dr_moves.specs.Turns.{Advances, Halts, Leads, Fails};
ghost use Rattle.dr_admin.specs.Answering.{Comes, write_number, start_answer};
ghost use Rattle.dr_admin.specs.Starting.{start_from, without_acked, acks, start_events};

use crate::owners::belongs;
use dr_config::Config;
use dr_coord::restart;
use dr_host::Host;
use dr_ids::{Refusal, ServerId, VolumeId, WriteId};
use dr_model::{Event, Journal};
use dr_moves::{Act, perform, place_staged};
use dr_plant::Plant;

/// Acknowledges the write that had landed on a volume of the server in a stop, where there is one, and gives its number. The
/// journal needs room for an event.
fn acknowledge(config: &Config, journal: &mut Journal, h: &mut Host, s: ServerId) -> Option<WriteId>
    requires room { 1 ≤ journal.old.spare }
    ensures number { write_number result ≡ landed_on config.now s.0 h.old.pending }
    ensures carried { (x : PlantState) (r : Rest) (armed : ℕ → Bool) → Ends armed (here x config.now r h.new journal.new.events) None (here x config.now r h.old journal.old.events) (acknowledge_on s.0 ∷ []) }
    ensures host { h.new ≡ without_acked (write_number result) h.old }
    ensures told { journal.new.events ≡ journal.old.events ++ acks (write_number result) }
    ensures room { journal.old.spare ≡ journal.new.spare + length (acks (write_number result)) }
{
    let Some(w) = h.landed_on(config, s) else {
        return None;
    };
    perform(journal, h, &Act::Acknowledge { w });
    Some(w)
}

/// Writes the staged track of the server's volume to its own place.
fn redo_own<P: Plant>(
    plant: &mut P,
    config: &Config,
    journal: &mut Journal,
    s: ServerId,
    v: VolumeId,
) -> Result<(), Refusal>
    requires rest { IsAtRest (P.state plant.old) config.now }
    requires on { (P.state plant.old).on s.0 ≡ true }
    requires defined { IsSome (place_of config.now v.0) }
    requires owned { has_owner config.now v.0 s.0 ≡ true }
    requires room { 1 ≤ journal.old.spare }
    ensures advances { OnOk result ((r : Rest) → Advances (world_seen (P.state plant.old) config.now r journal.old.events) (redo_on s.0 v.0) (world_seen (P.state plant.new) config.now r journal.new.events)) }
    ensures halts { OnErr result ((r : Rest) → Halts (armed_in (P.state plant.old)) (world_seen (P.state plant.old) config.now r journal.old.events) (redo_on s.0 v.0) (world_seen (P.state plant.new) config.now r journal.new.events) (refusal_of result)) }
    ensures stopped { OnErr result (refusal_of result ≡ Some (stopped s.0)) }
    ensures rest { IsAtRest (P.state plant.new) config.now }
    ensures stayed { Stayed (P.state plant.old) (P.state plant.new) config.now journal.old journal.new s.0 1 result }
    ensures told { OnOk result (journal.new ≡ journal.old) }
{
    place_staged(plant, config, journal, v)
}

/// Lets the server's volume go on.
fn restart_own<P: Plant>(
    plant: &mut P,
    config: &Config,
    journal: &mut Journal,
    s: ServerId,
    v: VolumeId,
) -> Result<(), Refusal>
    requires rest { IsAtRest (P.state plant.old) config.now }
    requires on { (P.state plant.old).on s.0 ≡ true }
    requires defined { IsSome (place_of config.now v.0) }
    requires owned { has_owner config.now v.0 s.0 ≡ true }
    requires room { 3 ≤ journal.old.spare }
    ensures advances { OnOk result ((r : Rest) → Advances (world_seen (P.state plant.old) config.now r journal.old.events) (restart_on s.0 v.0) (world_seen (P.state plant.new) config.now r journal.new.events)) }
    ensures halts { OnErr result ((r : Rest) → Halts (armed_in (P.state plant.old)) (world_seen (P.state plant.old) config.now r journal.old.events) (restart_on s.0 v.0) (world_seen (P.state plant.new) config.now r journal.new.events) (refusal_of result)) }
    ensures stopped { OnErr result (refusal_of result ≡ Some (stopped s.0)) }
    ensures rest { IsAtRest (P.state plant.new) config.now }
    ensures stayed { Stayed (P.state plant.old) (P.state plant.new) config.now journal.old journal.new s.0 3 result }
    ensures told { OnOk result (journal.new ≡ journal.old) }
{
    restart(plant, config, journal, v)
}

/// Lets the volume at a place write its staged track to its own place and go on, where the volume is the server's.
fn go_on_at<P: Plant>(
    plant: &mut P,
    config: &Config,
    journal: &mut Journal,
    s: ServerId,
    place: usize,
) -> Result<(), Refusal>
    requires rest { IsAtRest (P.state plant.old) config.now }
    requires on { (P.state plant.old).on s.0 ≡ true }
    requires within { place < length config.now.volumes }
    requires room { 3 ≤ journal.old.spare }
    ensures goes { OnOk result ((r : Rest) (armed : ℕ → Bool) (u : World) (q : Option Refusal) (ds : List Entry) → Ends armed u q (world_seen (P.state plant.new) config.now r journal.new.events) (start_from config.now s.0 (place + 1) ++ ds)
        → Ends armed u q (world_seen (P.state plant.old) config.now r journal.old.events) (start_from config.now s.0 place ++ ds)) }
    ensures fails { OnErr result ((r : Rest) → Fails (armed_in (P.state plant.old)) (world_seen (P.state plant.old) config.now r journal.old.events) (start_from config.now s.0 place) (world_seen (P.state plant.new) config.now r journal.new.events) (refusal_of result)) }
    ensures stopped { OnErr result (refusal_of result ≡ Some (stopped s.0)) }
    ensures rest { IsAtRest (P.state plant.new) config.now }
    ensures stayed { Stayed (P.state plant.old) (P.state plant.new) config.now journal.old journal.new s.0 3 result }
    ensures told { OnOk result (journal.new ≡ journal.old) }
{
    let v = config.volume_at(place).unwrap();
    if !belongs(config, v, s) {
        return Ok(());
    }
    match redo_own(plant, config, journal, s, v) {
        Ok(()) => restart_own(plant, config, journal, s, v),
        Err(why) => Err(why),
    }
}

/// Lets a server's volumes write their staged tracks to their places and go on, volume by volume, in order of definition,
/// until the server stops. The journal needs room for two events for each volume and one more.
fn go_on_all<P: Plant>(
    plant: &mut P,
    config: &Config,
    journal: &mut Journal,
    s: ServerId,
) -> Result<(), Refusal>
    requires rest { IsAtRest (P.state plant.old) config.now }
    requires on { (P.state plant.old).on s.0 ≡ true }
    requires room { length config.now.volumes + length config.now.volumes + 1 ≤ journal.old.spare }
    ensures leads { OnOk result ((r : Rest) → Leads (world_seen (P.state plant.old) config.now r journal.old.events) (start_from config.now s.0 0) (world_seen (P.state plant.new) config.now r journal.new.events)) }
    ensures fails { OnErr result ((r : Rest) → Fails (armed_in (P.state plant.old)) (world_seen (P.state plant.old) config.now r journal.old.events) (start_from config.now s.0 0) (world_seen (P.state plant.new) config.now r journal.new.events) (refusal_of result)) }
    ensures stopped { OnErr result (refusal_of result ≡ Some (stopped s.0)) }
    ensures rest { IsAtRest (P.state plant.new) config.now }
    ensures stayed { Stayed (P.state plant.old) (P.state plant.new) config.now journal.old journal.new s.0 (length config.now.volumes + length config.now.volumes + 1) result }
    ensures told { OnOk result (journal.new ≡ journal.old) }
{
    for place in 0..config.volumes() {
        go_on_at(plant, config, journal, s, place)?;
    }
    Ok(())
}

/// Turns on a server that is off. In order of definition, each of its volumes writes its staged track to its place and then
/// goes on where it has to: one that records or is held by coordination is voided, and a Metro Mirror pair that a stop left Full
/// Duplex with a track out of sync is in Copy Pending. At the end the first of the host's writes that landed on a volume of the
/// server in a stop is acknowledged, so that it is pending no more, and its number is given back; none where none had landed.
/// The journal is told of the start and of the acknowledgement. Fails where the server stops in a write or goes off at a read;
/// then what was done stays, no write is acknowledged, and the host's writes are as they were. Its fuses that stand at 0 are
/// taken away first. However it ends, the server was started once more, which the caller is to count. The journal needs room
/// for two events for each volume and two more.
pub fn start<P: Plant>(
    plant: &mut P,
    config: &Config,
    journal: &mut Journal,
    h: &mut Host,
    s: ServerId,
) -> Result<Option<WriteId>, Refusal>
    requires rest { IsAtRest (P.state plant.old) config.now }
    requires known { s.0 < 8 }
    requires off { (P.state plant.old).on s.0 ≡ false }
    requires room { length config.now.volumes + length config.now.volumes + 2 ≤ journal.old.spare }
    ensures plan { (r : Rest) → Comes (armed_in (P.state plant.old)) (here (P.state plant.old) config.now r h.old journal.old.events) (start_on (here (P.state plant.old) config.now r h.old journal.old.events).control s.0)
        (here (P.state plant.new) config.now (with_flight (started s.0 r.flight) r) h.new journal.new.events) (start_answer result) }
    ensures stopped { OnErr result (refusal_of result ≡ Some (stopped s.0)) }
    ensures acked { IfOk result (λ a. write_number a ≡ landed_on config.now s.0 h.old.pending) }
    ensures host { IfOk result (λ a. h.new ≡ without_acked (write_number a) h.old) }
    ensures told { IfOk result (λ a. journal.new.events ≡ journal.old.events ++ start_events s.0 (write_number a)) }
    ensures same { OnErr result (h.new ≡ h.old) }
    ensures rest { IsAtRest (P.state plant.new) config.now }
    ensures unarmed { (q : ℕ) → (P.state plant.old).read_fuse q ≡ None → (P.state plant.new).read_fuse q ≡ None }
    ensures faults { Counted (is_err result) (P.state plant.old).faults (P.state plant.new).faults }
    ensures on { OnOk result ((P.state plant.new).on ≡ at (P.state plant.old).on s.0 true) }
    ensures off { OnErr result ((P.state plant.new).on s.0 ≡ false) }
    ensures issued { h.new.issued ≡ h.old.issued }
    ensures room { journal.old.spare ≤ journal.new.spare + (length config.now.volumes + length config.now.volumes + 2) }
    ensures room_left { IfOk result (λ a. journal.old.spare ≡ journal.new.spare + length (start_events s.0 (write_number a))) }
    ensures spare { length journal.new.events + journal.new.spare ≡ length journal.old.events + journal.old.spare }
{
    plant.start(s.0);
    journal.push(Event::Started { server: s.0 });
    match go_on_all(plant, config, journal, s) {
        Ok(()) => Ok(acknowledge(config, journal, h, s)),
        Err(why) => Err(why),
    }
}
