//! One round of a drain: the lowest track that is out of sync is sent.

ghost use Rattle.std.specs.Prelude.{◌≡◌, ◌≢◌, ℕ, ◌≤◌, ◌+◌, ◌&&◌, true, false, List, length, None, Some, IsSome, IfOk, OnOk, is_some, if◌then◌else◌};
ghost use Rattle.dr_logic.specs.Counts.{Counted};
ghost use Rattle.dr_config.specs.Table.{place_of};
ghost use Rattle.dr_model.specs.declared.event.Event.{Event};
ghost use Rattle.dr_model.specs.Entries.{copies_from, is_running, pair_state};
ghost use Rattle.dr_model.specs.Layout as layout;
ghost use Rattle.dr_model.specs.PairEntries.{suspend_after};
ghost use Rattle.dr_model.specs.Pairs as pairs;
ghost use Rattle.dr_model.specs.Refusals.{server_off};
ghost use Rattle.dr_model.specs.Relations.{lowest};
ghost use Rattle.dr_volume.specs.Update.{IsAsBefore};
ghost use Rattle.dr_volume.specs.View.{Rest, volume_seen};
ghost use Rattle.dr_moves.specs.Checks.{OnNone, is_stop};
ghost use Rattle.dr_moves.specs.Fit.{RelationsFit};
ghost use Rattle.dr_moves.specs.Here.{world_seen, refusal_of, armed_in, IsAtRest};
ghost use Rattle.dr_moves.specs.Followed.{EndsFollowed};
ghost use Rattle.dr_failover.specs.Steps.{copying_refusal, resync_entries};
ghost use Rattle.dr_failover.specs.Outcomes.{HasPartner, IsOneSent};

use dr_config::Config;
use dr_gcopy::{running_refusal, send_track};
use dr_ids::{Refusal, VolumeId};
use dr_model::Journal;
use dr_moves::{lowest, pair_state, tracks_of};
use dr_plant::Plant;
use dr_volume::{Head, peek_fields, peek_head};

/// Whether a volume with this head is a primary in Copy Pending.
fn is_copying(h: &Head) -> bool
    ensures { result ≡ (layout.is_part h.now.primary && pairs.is_pending h.now.primary_state) }
{
    h.primary.is_part() && h.primary_state.is_pending()
}

/// Why x sends nothing: its server is off, or it is no primary in Copy Pending.
fn copying_refusal<P: Plant>(plant: &P, config: &Config, x: VolumeId) -> Option<Refusal>
    requires rest { IsAtRest (P.state plant.now) config.now }
    requires defined { IsSome (place_of config.now x.0) }
    ensures refusal { (r : Rest) (events : List Event) → result ≡ copying_refusal x.0 (world_seen (P.state plant.now) config.now r events).control }
    ensures running { OnNone result ((P.state plant.now).on (volume_seen (P.state plant.now) config.now x.0).server ≡ true) }
    ensures primary { OnNone result (layout.is_part (volume_seen (P.state plant.now) config.now x.0).fields.primary ≡ true) }
    ensures calm { is_stop result ≡ false }
{
    if let Some(why) = running_refusal(plant, config, x) {
        return Some(why);
    }
    if !is_copying(&peek_head(plant, config, x)) {
        return Some(pair_state(plant, config, x));
    }
    None
}

/// Primary x sends the lowest track that is out of sync; says whether there was one. With the last track of a Metro Mirror pair both are
/// Full Duplex. Refused, in this order, where the server of x
/// is off, or x is no primary in Copy Pending, and then as the send of a track is. Fails too where a server stops in a move
/// or goes off at a read; what was done by then stays, and x is suspended where its own server still runs. The journal needs room
/// for an event for each volume and six more.
pub fn resync_step<P: Plant>(
    plant: &mut P,
    config: &Config,
    journal: &mut Journal,
    x: VolumeId,
) -> Result<bool, Refusal>
    requires rest { IsAtRest (P.state plant.old) config.now }
    requires fit { RelationsFit (P.state plant.old) config.now }
    requires defined { IsSome (place_of config.now x.0) }
    requires partner { HasPartner (P.state plant.old) config.now x.0 }
    requires room { length config.now.volumes + 6 ≤ journal.old.spare }
    ensures carried { (r : Rest) → EndsFollowed (armed_in (P.state plant.old)) (world_seen (P.state plant.old) config.now r journal.old.events)
        (resync_entries (world_seen (P.state plant.old) config.now r journal.old.events).control x.0) (suspend_after x.0) (world_seen (P.state plant.new) config.now r journal.new.events) (refusal_of result) }
    ensures more { IfOk result (λ more. more ≡ is_some (lowest (volume_seen (P.state plant.old) config.now x.0).tracks (volume_seen (P.state plant.old) config.now x.0).fields.out_of_sync)) }
    ensures sent { IfOk result (λ more. more ≡ true → IsOneSent (volume_seen (P.state plant.old) config.now x.0).tracks (volume_seen (P.state plant.old) config.now x.0).fields (volume_seen (P.state plant.new) config.now x.0).fields
        (volume_seen (P.state plant.old) config.now (volume_seen (P.state plant.old) config.now x.0).fields.primary_partner).fields (volume_seen (P.state plant.new) config.now (volume_seen (P.state plant.old) config.now x.0).fields.primary_partner).fields) }
    ensures idle { IfOk result (λ more. more ≡ false → (P.state plant.new ≡ P.state plant.old) × (journal.new ≡ journal.old)) }
    ensures duplex { (r : Rest) → pairs.is_full_duplex (volume_seen (P.state plant.old) config.now x.0).fields.primary_state ≡ true
        → refusal_of result ≡ Some (if is_running x.0 (world_seen (P.state plant.old) config.now r journal.old.events).control then pair_state (world_seen (P.state plant.old) config.now r journal.old.events).control x.0 else server_off (volume_seen (P.state plant.old) config.now x.0).server) }
    ensures rest { IsAtRest (P.state plant.new) config.now }
    ensures fit { RelationsFit (P.state plant.new) config.now }
    ensures unarmed { (q : ℕ) → (P.state plant.old).read_fuse q ≡ None → (P.state plant.new).read_fuse q ≡ None }
    ensures faults { Counted (is_stop (refusal_of result)) (P.state plant.old).faults (P.state plant.new).faults }
    ensures others { (q : ℕ) → q ≢ x.0 → q ≢ (volume_seen (P.state plant.old) config.now x.0).fields.primary_partner → copies_from (volume_seen (P.state plant.old) config.now x.0).fields.primary_partner (volume_seen (P.state plant.old) config.now q).fields ≡ false → IsAsBefore (P.state plant.old) (P.state plant.new) config.now q }
    ensures on { OnOk result ((P.state plant.new).on ≡ (P.state plant.old).on) }
    ensures room { journal.old.spare ≤ journal.new.spare + (length config.now.volumes + 6) }
    ensures spare { length journal.new.events + journal.new.spare ≡ length journal.old.events + journal.old.spare }
{
    if let Some(why) = copying_refusal(plant, config, x) {
        return Err(why);
    }
    let fields = peek_fields(plant, config, x);
    let Some(t) = lowest(tracks_of(config, x), &fields.out_of_sync) else {
        return Ok(false);
    };
    match send_track(plant, config, journal, x, t) {
        Ok(()) => Ok(true),
        Err(why) => Err(why),
    }
}
