//! A secondary stores a track of its primary, and the primary strikes it off.

ghost use Rattle.std.specs.Prelude.{◌≡◌, ℕ, ◌<◌, ◌≤◌, ◌+◌, true, length, [], ◌∷◌, None, Some, IsSome, OnOk, OnErr, is_err};
ghost use Rattle.dr_logic.specs.Counts.{Counted};
ghost use Rattle.dr_config.specs.Table.{place_of};
ghost use Rattle.dr_model.specs.Carry.{now};
ghost use Rattle.dr_model.specs.Layout.{is_part};
ghost use Rattle.dr_model.specs.Moves.{Store, Strike};
ghost use Rattle.dr_model.specs.Pairs as pairs;
ghost use Rattle.dr_model.specs.ReadStops.{Ends};
ghost use Rattle.dr_model.specs.Refusals.{stopped};
ghost use Rattle.dr_volume.specs.Update.{IsMoved, OthersStay};
ghost use Rattle.dr_volume.specs.View.{Rest, volume_seen, track_seen};
ghost use Rattle.dr_moves.specs.Fit.{RelationsFit};
ghost use Rattle.dr_moves.specs.Here.{world_seen, refusal_of, armed_in, IsAtRest};
ghost use Rattle.dr_moves.specs.Turns.{Advances, Halts};

use dr_config::Config;
use dr_ids::{Refusal, VolumeId};
use dr_model::Journal;
use dr_moves::{Move, make_move, make_move_by};
use dr_plant::{Block, Plant};
use dr_volume::peek_fields;

/// Stores at secondary b, whose server is on, the bytes of track t of its primary a. With the last track of a Metro
/// Mirror pair it is Full Duplex. Fails where the server stops in the move or goes off at a read. The journal needs room
/// for two events.
pub fn store<P: Plant>(
    plant: &mut P,
    config: &Config,
    journal: &mut Journal,
    b: VolumeId,
    t: u16,
    a: VolumeId,
    last: bool,
    bytes: &Block,
) -> Result<(), Refusal>
    requires rest { IsAtRest (P.state plant.old) config.now }
    requires fit { RelationsFit (P.state plant.old) config.now }
    requires defined { IsSome (place_of config.now b.0) }
    requires running { (P.state plant.old).on (volume_seen (P.state plant.old) config.now b.0).server ≡ true }
    requires secondary { is_part (volume_seen (P.state plant.old) config.now b.0).fields.secondary ≡ true }
    requires within { t < (volume_seen (P.state plant.old) config.now b.0).tracks }
    requires bytes { bytes.now ≡ track_seen (P.state plant.old) config.now a.0 t }
    requires room { 2 ≤ journal.old.spare }
    ensures carried { (r : Rest) → Ends (armed_in (P.state plant.old)) (world_seen (P.state plant.new) config.now r journal.new.events) (refusal_of result) (world_seen (P.state plant.old) config.now r journal.old.events) (now (Store b.0 t a.0 last) ∷ []) }
    ensures advances { OnOk result ((r : Rest) → Advances (world_seen (P.state plant.old) config.now r journal.old.events) (now (Store b.0 t a.0 last)) (world_seen (P.state plant.new) config.now r journal.new.events)) }
    ensures halts { OnErr result ((r : Rest) → Halts (armed_in (P.state plant.old)) (world_seen (P.state plant.old) config.now r journal.old.events) (now (Store b.0 t a.0 last)) (world_seen (P.state plant.new) config.now r journal.new.events) (refusal_of result)) }
    ensures refused { OnErr result (refusal_of result ≡ Some (stopped (volume_seen (P.state plant.old) config.now b.0).server)) }
    ensures rest { IsAtRest (P.state plant.new) config.now }
    ensures fit { RelationsFit (P.state plant.new) config.now }
    ensures unarmed { (q : ℕ) → (P.state plant.old).read_fuse q ≡ None → (P.state plant.new).read_fuse q ≡ None }
    ensures faults { Counted (is_err result) (P.state plant.old).faults (P.state plant.new).faults }
    ensures moved { OnOk result (IsMoved (P.state plant.old) (P.state plant.new) config.now b.0 (pairs.received last (volume_seen (P.state plant.old) config.now b.0).fields t) (Some (t, bytes.now))) }
    ensures others { OthersStay (P.state plant.old) (P.state plant.new) config.now b.0 }
    ensures on { OnOk result ((P.state plant.new).on ≡ (P.state plant.old).on) }
    ensures room { journal.old.spare ≤ journal.new.spare + 2 }
    ensures room_left { OnOk result (journal.old.spare ≤ journal.new.spare + 1) }
    ensures spare { length journal.new.events + journal.new.spare ≡ length journal.old.events + journal.old.spare }
{
    let track = *bytes;
    let mut fields = peek_fields(plant, config, b);
    let store = Move::Store {
        v: b,
        t,
        u: a,
        last,
    };
    make_move_by(
        plant,
        config,
        journal,
        &store,
        &mut fields,
        Some((t, track)),
    )
}

/// Primary a, whose server is on, strikes off track t, which its secondary has stored. With the last track of a Metro
/// Mirror pair it is Full Duplex. Nothing is told. Fails where the server stops in the move or goes off at a read. The
/// journal needs room for an event.
pub fn strike<P: Plant>(
    plant: &mut P,
    config: &Config,
    journal: &mut Journal,
    a: VolumeId,
    t: u16,
    last: bool,
) -> Result<(), Refusal>
    requires rest { IsAtRest (P.state plant.old) config.now }
    requires fit { RelationsFit (P.state plant.old) config.now }
    requires defined { IsSome (place_of config.now a.0) }
    requires running { (P.state plant.old).on (volume_seen (P.state plant.old) config.now a.0).server ≡ true }
    requires primary { is_part (volume_seen (P.state plant.old) config.now a.0).fields.primary ≡ true }
    requires room { 1 ≤ journal.old.spare }
    ensures carried { (r : Rest) → Ends (armed_in (P.state plant.old)) (world_seen (P.state plant.new) config.now r journal.new.events) (refusal_of result) (world_seen (P.state plant.old) config.now r journal.old.events) (now (Strike a.0 t last) ∷ []) }
    ensures advances { OnOk result ((r : Rest) → Advances (world_seen (P.state plant.old) config.now r journal.old.events) (now (Strike a.0 t last)) (world_seen (P.state plant.new) config.now r journal.new.events)) }
    ensures halts { OnErr result ((r : Rest) → Halts (armed_in (P.state plant.old)) (world_seen (P.state plant.old) config.now r journal.old.events) (now (Strike a.0 t last)) (world_seen (P.state plant.new) config.now r journal.new.events) (refusal_of result)) }
    ensures refused { OnErr result (refusal_of result ≡ Some (stopped (volume_seen (P.state plant.old) config.now a.0).server)) }
    ensures rest { IsAtRest (P.state plant.new) config.now }
    ensures fit { RelationsFit (P.state plant.new) config.now }
    ensures unarmed { (q : ℕ) → (P.state plant.old).read_fuse q ≡ None → (P.state plant.new).read_fuse q ≡ None }
    ensures faults { Counted (is_err result) (P.state plant.old).faults (P.state plant.new).faults }
    ensures moved { OnOk result (IsMoved (P.state plant.old) (P.state plant.new) config.now a.0 (pairs.struck last (volume_seen (P.state plant.old) config.now a.0).fields t) None) }
    ensures others { OthersStay (P.state plant.old) (P.state plant.new) config.now a.0 }
    ensures on { OnOk result ((P.state plant.new).on ≡ (P.state plant.old).on) }
    ensures room { journal.old.spare ≤ journal.new.spare + 1 }
    ensures room_left { OnOk result (journal.old.spare ≡ journal.new.spare) }
    ensures spare { length journal.new.events + journal.new.spare ≡ length journal.old.events + journal.old.spare }
{
    let strike = Move::Strike { v: a, t, last };
    make_move(plant, config, journal, &strike, None)
}
