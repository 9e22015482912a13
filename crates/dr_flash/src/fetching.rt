//! The background copy, and what a target shows.

ghost use Rattle.std.specs.Prelude.{◌≡◌, ℕ, ◌<◌, ◌≤◌, ◌+◌, true, false, None, Some, IsSome, IfSome, IfOk, OnOk, OnErr, is_ok, is_err, is_some, [], ◌∷◌, length};
ghost use Rattle.std.specs.FinSet.{contains};
ghost use Rattle.dr_logic.specs.Counts.{Counted};
ghost use Rattle.dr_plant.specs.State.{after_read, can_read};
ghost use Rattle.dr_ids.specs.Sizes.{most_tracks};
ghost use Rattle.dr_config.specs.Table.{StandsFor, place_of};
ghost use Rattle.dr_model.specs.Carry.{now};
ghost use Rattle.dr_model.specs.Entries.{fetch_next, lowest_missing};
ghost use Rattle.dr_model.specs.Moves.{Fetch};
ghost use Rattle.dr_model.specs.ReadStops.{Ends};
ghost use Rattle.dr_model.specs.Refusals.{stopped};
ghost use Rattle.dr_model.specs.Relations as relations;
ghost use Rattle.dr_model.specs.Views.{view, shows_source};
ghost use Rattle.dr_volume.specs.Plain.{plain};
ghost use Rattle.dr_volume.specs.Update.{OthersStay};
ghost use Rattle.dr_volume.specs.View.{Rest, volume_seen, track_seen, device_of};
ghost use Rattle.dr_moves.specs.Fit.{RelationsFit};
ghost use Rattle.dr_moves.specs.Here.{world_seen, refusal_of, armed_in, IsAtRest};
ghost use Rattle.dr_moves.specs.Turns.{Advances, Halts};
ghost use Rattle.dr_flash.specs.Views.{AllShow};

use crate::taking::take;
use dr_bits::TrackSet;
use dr_config::Config;
use dr_ids::{Refusal, VolumeId};
use dr_model::Journal;
use dr_moves::{Move, lowest, rest, tracks_of};
use dr_plant::{Block, Plant, Stopped};
use dr_volume::{open_gate, peek_fields, peek_head, peek_holds, peek_relation_at, read_track};

/// The source of a target that shows its source's track t.
fn shown_by<P: Plant>(plant: &P, config: &Config, v: VolumeId, t: u16) -> Option<VolumeId>
    requires stands { StandsFor config.now (P.state plant.now) }
    requires defined { IsSome (place_of config.now v.0) }
    requires within { t < (volume_seen (P.state plant.now) config.now v.0).tracks }
    ensures none { result ≡ None → shows_source (volume_seen (P.state plant.now) config.now v.0).fields t ≡ false }
    ensures source { IfSome result (λ u. (shows_source (volume_seen (P.state plant.now) config.now v.0).fields t ≡ true) × (u.0 ≡ (volume_seen (P.state plant.now) config.now v.0).fields.source)) }
{
    let place = config.device_of(v).unwrap();
    let found = peek_relation_at(plant, config, place.0 as usize);
    if found.related && !peek_holds(plant, config, v, t) {
        Some(found.source)
    } else {
        None
    }
}

/// Reads what a track of a volume shows: its own bytes where it is no target or holds the track, else its source's. Fails
/// where the plant can't read its device; then `into` is as before.
pub fn read_target<P: Plant>(
    plant: &mut P,
    config: &Config,
    v: VolumeId,
    t: u16,
    into: &mut Block,
) -> Result<(), Stopped>
    requires defined { IsSome (place_of config.now v.0) }
    requires stands { StandsFor config.now (P.state plant.old) }
    requires fit { RelationsFit (P.state plant.old) config.now }
    requires within { t < (volume_seen (P.state plant.old) config.now v.0).tracks }
    ensures state { P.state plant.new ≡ after_read (P.state plant.old) (device_of config.now v.0) }
    ensures done { is_ok result ≡ can_read (P.state plant.old) (device_of config.now v.0) }
    ensures bytes { OnOk result (into.new ≡ view (λ u. (volume_seen (P.state plant.old) config.now u).fields) (track_seen (P.state plant.old) config.now) v.0 t) }
    ensures same { OnErr result (into.new ≡ into.old) }
{
    open_gate(plant, config, v)?;
    match shown_by(plant, config, v, t) {
        Some(source) => read_track(plant, config, source, t, into),
        None => read_track(plant, config, v, t, into),
    }
}

/// The lowest track of n that a target which holds `own` doesn't hold.
fn next_missing(n: u16, own: &TrackSet) -> Option<u16>
    requires { n ≤ most_tracks }
    ensures track { result ≡ relations.lowest n (relations.rest n own.now) }
    ensures within { IfSome result (λ t. t < n) }
    ensures missing { IfSome result (λ t. contains own.now t ≡ false) }
{
    lowest(n, &rest(n, own))
}

/// Copies one track of a volume whose server is on: the lowest that it doesn't hold yet, where it is a target. Says whether
/// there was one. Fails where the server stops in the move or goes off at a read. The journal needs room for two events.
pub fn copy_step<P: Plant>(
    plant: &mut P,
    config: &Config,
    journal: &mut Journal,
    v: VolumeId,
) -> Result<bool, Refusal>
    requires rest { IsAtRest (P.state plant.old) config.now }
    requires fit { RelationsFit (P.state plant.old) config.now }
    requires defined { IsSome (place_of config.now v.0) }
    requires running { (P.state plant.old).on (volume_seen (P.state plant.old) config.now v.0).server ≡ true }
    requires room { 2 ≤ journal.old.spare }
    ensures carried { (r : Rest) → Ends (armed_in (P.state plant.old)) (world_seen (P.state plant.new) config.now r journal.new.events) (refusal_of result) (world_seen (P.state plant.old) config.now r journal.old.events) (fetch_next v.0 ∷ []) }
    ensures advances { OnOk result ((r : Rest) → Advances (world_seen (P.state plant.old) config.now r journal.old.events) (fetch_next v.0) (world_seen (P.state plant.new) config.now r journal.new.events)) }
    ensures halts { OnErr result ((r : Rest) → Halts (armed_in (P.state plant.old)) (world_seen (P.state plant.old) config.now r journal.old.events) (fetch_next v.0) (world_seen (P.state plant.new) config.now r journal.new.events) (refusal_of result)) }
    ensures left { IfOk result (λ found. (r : Rest) → found ≡ is_some (lowest_missing v.0 (world_seen (P.state plant.old) config.now r journal.old.events).control)) }
    ensures refused { OnErr result (refusal_of result ≡ Some (stopped (volume_seen (P.state plant.old) config.now v.0).server)) }
    ensures rest { IsAtRest (P.state plant.new) config.now }
    ensures fit { RelationsFit (P.state plant.new) config.now }
    ensures unarmed { (q : ℕ) → (P.state plant.old).read_fuse q ≡ None → (P.state plant.new).read_fuse q ≡ None }
    ensures faults { Counted (is_err result) (P.state plant.old).faults (P.state plant.new).faults }
    ensures others { OthersStay (P.state plant.old) (P.state plant.new) config.now v.0 }
    ensures show { AllShow (P.state plant.old) (P.state plant.new) config.now }
    ensures on { OnOk result ((P.state plant.new).on ≡ (P.state plant.old).on) }
    ensures room { journal.old.spare ≤ journal.new.spare + 2 }
    ensures room_left { OnOk result (journal.old.spare ≤ journal.new.spare + 1) }
    ensures spare { length journal.new.events + journal.new.spare ≡ length journal.old.events + journal.old.spare }
{
    if !peek_head(plant, config, v).related {
        return Ok(false);
    }
    let fields = peek_fields(plant, config, v);
    let tracks = tracks_of(config, v);
    let Some(t) = next_missing(tracks, &fields.own) else {
        return Ok(false);
    };
    let m = Move::Fetch { v, t };
    take(plant, config, journal, &m, v, t, &fields)?;
    Ok(true)
}
