//! A source takes a track back.

ghost use Rattle.std.specs.Prelude.{◌≡◌, ℕ, ◌<◌, ◌≤◌, ◌+◌, true, false, length, None, Some, IsSome, OnOk, OnErr, is_err};
ghost use Rattle.dr_logic.specs.Counts.{Counted};
ghost use Rattle.dr_config.specs.Table.{place_of};
ghost use Rattle.dr_model.specs.Carry.{now};
ghost use Rattle.dr_model.specs.Moves.{Restore};
ghost use Rattle.dr_model.specs.Refusals.{stopped};
ghost use Rattle.dr_model.specs.Pairs as pairs;
ghost use Rattle.dr_volume.specs.Update.{IsMoved, OthersStay};
ghost use Rattle.dr_volume.specs.View.{Rest, volume_seen, track_seen};
ghost use Rattle.dr_moves.specs.Fit.{RelationsFit};
ghost use Rattle.dr_moves.specs.Here.{world_seen, refusal_of, armed_in, IsAtRest};
ghost use Rattle.dr_moves.specs.Turns.{Advances, Halts};

use dr_config::Config;
use dr_ids::{Refusal, VolumeId};
use dr_model::Journal;
use dr_moves::{Move, make_move, read_told};
use dr_plant::{Block, Plant};

/// Source s stores these bytes of track k, which are those of its target t.
fn store_back<P: Plant>(
    plant: &mut P,
    config: &Config,
    journal: &mut Journal,
    s: VolumeId,
    k: u16,
    t: VolumeId,
    bytes: &Block,
) -> Result<(), Refusal>
    requires rest { IsAtRest (P.state plant.old) config.now }
    requires fit { RelationsFit (P.state plant.old) config.now }
    requires defined { IsSome (place_of config.now s.0) }
    requires running { (P.state plant.old).on (volume_seen (P.state plant.old) config.now s.0).server ≡ true }
    requires plain { (volume_seen (P.state plant.old) config.now s.0).fields.related ≡ false }
    requires within { k < (volume_seen (P.state plant.old) config.now s.0).tracks }
    requires bytes { bytes.now ≡ track_seen (P.state plant.old) config.now t.0 k }
    requires room { 2 ≤ journal.old.spare }
    ensures advances { OnOk result ((r : Rest) → Advances (world_seen (P.state plant.old) config.now r journal.old.events) (now (Restore s.0 k t.0)) (world_seen (P.state plant.new) config.now r journal.new.events)) }
    ensures halts { OnErr result ((r : Rest) → Halts (armed_in (P.state plant.old)) (world_seen (P.state plant.old) config.now r journal.old.events) (now (Restore s.0 k t.0)) (world_seen (P.state plant.new) config.now r journal.new.events) (refusal_of result)) }
    ensures refused { OnErr result (refusal_of result ≡ Some (stopped (volume_seen (P.state plant.old) config.now s.0).server)) }
    ensures rest { IsAtRest (P.state plant.new) config.now }
    ensures fit { RelationsFit (P.state plant.new) config.now }
    ensures unarmed { (q : ℕ) → (P.state plant.old).read_fuse q ≡ None → (P.state plant.new).read_fuse q ≡ None }
    ensures faults { Counted (is_err result) (P.state plant.old).faults (P.state plant.new).faults }
    ensures others { OthersStay (P.state plant.old) (P.state plant.new) config.now s.0 }
    ensures on { OnOk result ((P.state plant.new).on ≡ (P.state plant.old).on) }
    ensures moved { OnOk result (IsMoved (P.state plant.old) (P.state plant.new) config.now s.0 (pairs.altered (volume_seen (P.state plant.old) config.now s.0).fields k) (Some (k, bytes.now))) }
    ensures room { journal.old.spare ≤ journal.new.spare + 2 }
    ensures room_left { OnOk result (journal.old.spare ≤ journal.new.spare + 1) }
    ensures spare { length journal.new.events + journal.new.spare ≡ length journal.old.events + journal.old.spare }
{
    let m = Move::Restore { v: s, t: k, u: t };
    let track = *bytes;
    make_move(plant, config, journal, &m, Some((k, track)))
}

/// Source s takes track k back from its target t.
pub(crate) fn take_back<P: Plant>(
    plant: &mut P,
    config: &Config,
    journal: &mut Journal,
    s: VolumeId,
    k: u16,
    t: VolumeId,
) -> Result<(), Refusal>
    requires rest { IsAtRest (P.state plant.old) config.now }
    requires fit { RelationsFit (P.state plant.old) config.now }
    requires defined { IsSome (place_of config.now s.0) }
    requires running { (P.state plant.old).on (volume_seen (P.state plant.old) config.now s.0).server ≡ true }
    requires plain { (volume_seen (P.state plant.old) config.now s.0).fields.related ≡ false }
    requires target { IsSome (place_of config.now t.0) }
    requires same_server { (volume_seen (P.state plant.old) config.now t.0).server ≡ (volume_seen (P.state plant.old) config.now s.0).server }
    requires same_tracks { (volume_seen (P.state plant.old) config.now t.0).tracks ≡ (volume_seen (P.state plant.old) config.now s.0).tracks }
    requires within { k < (volume_seen (P.state plant.old) config.now s.0).tracks }
    requires room { 2 ≤ journal.old.spare }
    ensures advances { OnOk result ((r : Rest) → Advances (world_seen (P.state plant.old) config.now r journal.old.events) (now (Restore s.0 k t.0)) (world_seen (P.state plant.new) config.now r journal.new.events)) }
    ensures halts { OnErr result ((r : Rest) → Halts (armed_in (P.state plant.old)) (world_seen (P.state plant.old) config.now r journal.old.events) (now (Restore s.0 k t.0)) (world_seen (P.state plant.new) config.now r journal.new.events) (refusal_of result)) }
    ensures refused { OnErr result (refusal_of result ≡ Some (stopped (volume_seen (P.state plant.old) config.now s.0).server)) }
    ensures rest { IsAtRest (P.state plant.new) config.now }
    ensures fit { RelationsFit (P.state plant.new) config.now }
    ensures unarmed { (q : ℕ) → (P.state plant.old).read_fuse q ≡ None → (P.state plant.new).read_fuse q ≡ None }
    ensures faults { Counted (is_err result) (P.state plant.old).faults (P.state plant.new).faults }
    ensures others { OthersStay (P.state plant.old) (P.state plant.new) config.now s.0 }
    ensures on { OnOk result ((P.state plant.new).on ≡ (P.state plant.old).on) }
    ensures moved { OnOk result (IsMoved (P.state plant.old) (P.state plant.new) config.now s.0 (pairs.altered (volume_seen (P.state plant.old) config.now s.0).fields k) (Some (k, track_seen (P.state plant.old) config.now t.0 k))) }
    ensures room { journal.old.spare ≤ journal.new.spare + 2 }
    ensures room_left { OnOk result (journal.old.spare ≤ journal.new.spare + 1) }
    ensures spare { length journal.new.events + journal.new.spare ≡ length journal.old.events + journal.old.spare }
{
    let mut bytes = [0; 64];
    read_told(plant, config, journal, t, k, &mut bytes)?;
    store_back(plant, config, journal, s, k, t, &bytes)
}
