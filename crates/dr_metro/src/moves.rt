//! A primary says that a track is about to change on both sides, and its secondary stores the new bytes.

ghost use Rattle.std.specs.Prelude.{◌≡◌, ◌≢◌, ℕ, ◌<◌, ◌≤◌, ◌+◌, true, length, [], ◌∷◌, None, Some, IsSome, OnOk, OnErr, is_err};
ghost use Rattle.dr_logic.specs.Counts.{Counted};
ghost use Rattle.dr_config.specs.Table.{place_of};
ghost use Rattle.dr_model.specs.Carry.{now};
ghost use Rattle.dr_model.specs.Contents.{with_write};
ghost use Rattle.dr_model.specs.Histories.{histories};
ghost use Rattle.dr_model.specs.Layout.{is_part};
ghost use Rattle.dr_model.specs.Moves.{Unsync, Mirror};
ghost use Rattle.dr_model.specs.Pairs as pairs;
ghost use Rattle.dr_model.specs.ReadStops.{Ends};
ghost use Rattle.dr_model.specs.Refusals.{stopped};
ghost use Rattle.dr_volume.specs.Update.{IsMoved, OthersStay};
ghost use Rattle.dr_volume.specs.View.{Rest, volume_seen, track_seen};
ghost use Rattle.dr_volume.specs.Volume.{Says};
ghost use Rattle.dr_moves.specs.Checks.{is_stop};
ghost use Rattle.dr_moves.specs.Fit.{RelationsFit};
ghost use Rattle.dr_moves.specs.Here.{world_seen, refusal_of, armed_in, IsAtRest};
ghost use Rattle.dr_moves.specs.Made.{IsAt, May};
ghost use Rattle.dr_moves.specs.Turns.{Advances, Halts};
ghost use Rattle.dr_gcopy.specs.Ran.{Ran};

use dr_config::Config;
use dr_ids::{Refusal, VolumeId, WriteId};
use dr_model::Journal;
use dr_moves::{Move, make_move, make_move_by};
use dr_plant::{Block, Plant};
use dr_volume::Fields;

/// A host write on a track of a primary, and the secondary.
#[derive(Clone, Copy)]
pub(crate) struct Route {
    pub write: WriteId,
    pub from: VolumeId,
    pub to: VolumeId,
    pub track: u16,
}

/// Primary v, whose server is on, has track t out of sync, which is about to change on both sides. Nothing is told. Fails
/// where the server stops in the move or goes off at a read. The journal needs room for an event.
pub fn unsync<P: Plant>(
    plant: &mut P,
    config: &Config,
    journal: &mut Journal,
    v: VolumeId,
    t: u16,
) -> Result<(), Refusal>
    requires rest { IsAtRest (P.state plant.old) config.now }
    requires fit { RelationsFit (P.state plant.old) config.now }
    requires defined { IsSome (place_of config.now v.0) }
    requires running { (P.state plant.old).on (volume_seen (P.state plant.old) config.now v.0).server ≡ true }
    requires primary { is_part (volume_seen (P.state plant.old) config.now v.0).fields.primary ≡ true }
    requires within { t < (volume_seen (P.state plant.old) config.now v.0).tracks }
    requires room { 1 ≤ journal.old.spare }
    ensures carried { (r : Rest) → Ends (armed_in (P.state plant.old)) (world_seen (P.state plant.new) config.now r journal.new.events) (refusal_of result) (world_seen (P.state plant.old) config.now r journal.old.events) (now (Unsync v.0 t) ∷ []) }
    ensures advances { OnOk result ((r : Rest) → Advances (world_seen (P.state plant.old) config.now r journal.old.events) (now (Unsync v.0 t)) (world_seen (P.state plant.new) config.now r journal.new.events)) }
    ensures halts { OnErr result ((r : Rest) → Halts (armed_in (P.state plant.old)) (world_seen (P.state plant.old) config.now r journal.old.events) (now (Unsync v.0 t)) (world_seen (P.state plant.new) config.now r journal.new.events) (refusal_of result)) }
    ensures refused { OnErr result (refusal_of result ≡ Some (stopped (volume_seen (P.state plant.old) config.now v.0).server)) }
    ensures rest { IsAtRest (P.state plant.new) config.now }
    ensures fit { RelationsFit (P.state plant.new) config.now }
    ensures unarmed { (q : ℕ) → (P.state plant.old).read_fuse q ≡ None → (P.state plant.new).read_fuse q ≡ None }
    ensures faults { Counted (is_err result) (P.state plant.old).faults (P.state plant.new).faults }
    ensures moved { OnOk result (IsMoved (P.state plant.old) (P.state plant.new) config.now v.0 (pairs.unsynced (volume_seen (P.state plant.old) config.now v.0).fields t) None) }
    ensures others { OthersStay (P.state plant.old) (P.state plant.new) config.now v.0 }
    ensures on { OnOk result ((P.state plant.new).on ≡ (P.state plant.old).on) }
    ensures room { journal.old.spare ≤ journal.new.spare + 1 }
    ensures room_left { OnOk result (journal.old.spare ≡ journal.new.spare) }
    ensures spare { length journal.new.events + journal.new.spare ≡ length journal.old.events + journal.old.spare }
{
    make_move(plant, config, journal, &Move::Unsync { v, t }, None)
}

/// The same by the fields of the primary, which are at hand and become what the move leaves: of the record the gate alone is read. Fails
/// where the server stops in the move or goes off at a read. The journal needs room for one event.
pub fn unsync_by<P: Plant>(
    plant: &mut P,
    config: &Config,
    journal: &mut Journal,
    v: VolumeId,
    t: u16,
    fields: &mut Fields,
) -> Result<(), Refusal>
    requires at { IsAt (P.state plant.old) config.now }
    requires may { May (P.state plant.old) config.now (Unsync v.0 t) }
    requires says { Says (P.state plant.old) config.now v.0 fields.old }
    requires room { 1 ≤ journal.old.spare }
    ensures ran { Ran (P.state plant.old) (P.state plant.new) config.now journal.old journal.new (now (Unsync v.0 t) ∷ []) (λ q. q ≢ v.0) 1 0 result }
    ensures stops { OnErr result (is_stop (refusal_of result) ≡ true) }
    ensures moved { OnOk result (IsMoved (P.state plant.old) (P.state plant.new) config.now v.0 (pairs.unsynced (volume_seen (P.state plant.old) config.now v.0).fields t) None) }
    ensures says { OnOk result (Says (P.state plant.new) config.now v.0 fields.new) }
{
    make_move_by(plant, config, journal, &Move::Unsync { v, t }, fields, None)
}

/// Secondary u, whose server is on, stores these bytes of track t: those of its primary v with host write w over them.
/// Fails where the server stops in the move or goes off at a read. The journal needs room for two events.
pub fn mirror<P: Plant>(
    plant: &mut P,
    config: &Config,
    journal: &mut Journal,
    u: VolumeId,
    t: u16,
    v: VolumeId,
    w: WriteId,
    bytes: &Block,
) -> Result<(), Refusal>
    requires rest { IsAtRest (P.state plant.old) config.now }
    requires fit { RelationsFit (P.state plant.old) config.now }
    requires defined { IsSome (place_of config.now u.0) }
    requires running { (P.state plant.old).on (volume_seen (P.state plant.old) config.now u.0).server ≡ true }
    requires within { t < (volume_seen (P.state plant.old) config.now u.0).tracks }
    requires bytes { bytes.now ≡ with_write (histories journal.old.events).write (track_seen (P.state plant.old) config.now v.0 t) w.0 }
    requires room { 2 ≤ journal.old.spare }
    ensures carried { (r : Rest) → Ends (armed_in (P.state plant.old)) (world_seen (P.state plant.new) config.now r journal.new.events) (refusal_of result) (world_seen (P.state plant.old) config.now r journal.old.events) (now (Mirror u.0 t v.0 w.0) ∷ []) }
    ensures advances { OnOk result ((r : Rest) → Advances (world_seen (P.state plant.old) config.now r journal.old.events) (now (Mirror u.0 t v.0 w.0)) (world_seen (P.state plant.new) config.now r journal.new.events)) }
    ensures halts { OnErr result ((r : Rest) → Halts (armed_in (P.state plant.old)) (world_seen (P.state plant.old) config.now r journal.old.events) (now (Mirror u.0 t v.0 w.0)) (world_seen (P.state plant.new) config.now r journal.new.events) (refusal_of result)) }
    ensures refused { OnErr result (refusal_of result ≡ Some (stopped (volume_seen (P.state plant.old) config.now u.0).server)) }
    ensures rest { IsAtRest (P.state plant.new) config.now }
    ensures fit { RelationsFit (P.state plant.new) config.now }
    ensures unarmed { (q : ℕ) → (P.state plant.old).read_fuse q ≡ None → (P.state plant.new).read_fuse q ≡ None }
    ensures faults { Counted (is_err result) (P.state plant.old).faults (P.state plant.new).faults }
    ensures moved { OnOk result (IsMoved (P.state plant.old) (P.state plant.new) config.now u.0 (pairs.mirrored (volume_seen (P.state plant.old) config.now u.0).fields t) (Some (t, bytes.now))) }
    ensures others { OthersStay (P.state plant.old) (P.state plant.new) config.now u.0 }
    ensures on { OnOk result ((P.state plant.new).on ≡ (P.state plant.old).on) }
    ensures room { journal.old.spare ≤ journal.new.spare + 2 }
    ensures room_left { OnOk result (journal.old.spare ≤ journal.new.spare + 1) }
    ensures spare { length journal.new.events + journal.new.spare ≡ length journal.old.events + journal.old.spare }
{
    let m = Move::Mirror { v: u, t, u: v, w };
    let track = *bytes;
    make_move(plant, config, journal, &m, Some((t, track)))
}

/// The same by the secondary's fields, which are at hand.
pub(crate) fn mirror_by<P: Plant>(
    plant: &mut P,
    config: &Config,
    journal: &mut Journal,
    m: Route,
    bytes: &Block,
    fields: &Fields,
) -> Result<(), Refusal>
    requires at { IsAt (P.state plant.old) config.now }
    requires may { May (P.state plant.old) config.now (Mirror m.to.0 m.track m.from.0 m.write.0) }
    requires bytes { bytes.now ≡ with_write (histories journal.old.events).write (track_seen (P.state plant.old) config.now m.from.0 m.track) m.write.0 }
    requires says { Says (P.state plant.old) config.now m.to.0 fields.now }
    requires room { 2 ≤ journal.old.spare }
    ensures ran { Ran (P.state plant.old) (P.state plant.new) config.now journal.old journal.new (now (Mirror m.to.0 m.track m.from.0 m.write.0) ∷ []) (λ q. q ≢ m.to.0) 2 1 result }
    ensures stops { OnErr result (is_stop (refusal_of result) ≡ true) }
    ensures moved { OnOk result (IsMoved (P.state plant.old) (P.state plant.new) config.now m.to.0 (pairs.mirrored (volume_seen (P.state plant.old) config.now m.to.0).fields m.track) (Some (m.track, bytes.now))) }
{
    let store = Move::Mirror {
        v: m.to,
        t: m.track,
        u: m.from,
        w: m.write,
    };
    let track = *bytes;
    let mut next = *fields;
    make_move_by(
        plant,
        config,
        journal,
        &store,
        &mut next,
        Some((m.track, track)),
    )
}
