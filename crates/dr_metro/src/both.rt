//! A host write lands on a primary whose secondary has stored it.

ghost use Rattle.std.specs.Prelude.{◌≡◌, ℕ, ◌<◌, ◌≤◌, ◌+◌, true, length, [], ◌∷◌, None, Some, IsSome, OnOk, OnErr, is_err, List};
ghost use Rattle.std.specs.List.{find};
ghost use Rattle.dr_logic.specs.Counts.{Counted};
ghost use Rattle.dr_config.specs.Table.{place_of};
ghost use Rattle.dr_host.specs.Writes.{has_number};
ghost use Rattle.dr_model.specs.Carry.{now};
ghost use Rattle.dr_model.specs.Contents.{with_write};
ghost use Rattle.dr_model.specs.Histories.{histories};
ghost use Rattle.dr_model.specs.Layout.{is_part};
ghost use Rattle.dr_model.specs.Moves.{LandBoth};
ghost use Rattle.dr_model.specs.Pairs as pairs;
ghost use Rattle.dr_model.specs.ReadStops.{Ends};
ghost use Rattle.dr_model.specs.Refusals.{stopped};
ghost use Rattle.dr_volume.specs.Update.{IsMoved, OthersStay};
ghost use Rattle.dr_volume.specs.View.{Rest, volume_seen, track_seen};
ghost use Rattle.dr_moves.specs.Fit.{RelationsFit};
ghost use Rattle.dr_moves.specs.Here.{refusal_of, armed_in, IsAtRest};
ghost use Rattle.dr_host.specs.Here.{here};
ghost use Rattle.dr_metro.specs.Here.{IsTold};
ghost use Rattle.dr_metro.specs.Mirroring.{CanLand};
ghost use Rattle.dr_metro.specs.Writing.{Wrote};

use crate::landing::settle_write;
use dr_config::Config;
use dr_host::Host;
use dr_ids::{Refusal, VolumeId, WriteId};
use dr_model::Journal;
use dr_moves::{Move, make_by};
use dr_plant::{Block, Plant};
use dr_volume::{Fields, peek_fields};

/// Lands pending write w on track t of primary v, whose server is on, and acknowledges it: the track gets these bytes,
/// which its secondary has stored, and is out of sync no more. Fails where the server stops in the move or goes off at a
/// read: then the write stays pending, and it has landed where the move counts as done. The journal needs room for an event.
pub fn land_both<P: Plant>(
    plant: &mut P,
    config: &Config,
    journal: &mut Journal,
    h: &mut Host,
    w: WriteId,
    v: VolumeId,
    t: u16,
    bytes: &Block,
) -> Result<(), Refusal>
    requires rest { IsAtRest (P.state plant.old) config.now }
    requires fit { RelationsFit (P.state plant.old) config.now }
    requires told { IsTold h.old journal.old.events }
    requires defined { IsSome (place_of config.now v.0) }
    requires running { (P.state plant.old).on (volume_seen (P.state plant.old) config.now v.0).server ≡ true }
    requires primary { is_part (volume_seen (P.state plant.old) config.now v.0).fields.primary ≡ true }
    requires within { t < (volume_seen (P.state plant.old) config.now v.0).tracks }
    requires bytes { bytes.now ≡ with_write (histories journal.old.events).write (track_seen (P.state plant.old) config.now v.0 t) w.0 }
    requires waits { IsSome (find (has_number w.0) h.old.pending) }
    requires room { 1 ≤ journal.old.spare }
    ensures carried { (r : Rest) → Ends (armed_in (P.state plant.old)) (here (P.state plant.new) config.now r h.new journal.new.events) (refusal_of result) (here (P.state plant.old) config.now r h.old journal.old.events) (now (LandBoth w.0 v.0 t) ∷ []) }
    ensures refused { OnErr result (refusal_of result ≡ Some (stopped (volume_seen (P.state plant.old) config.now v.0).server)) }
    ensures rest { IsAtRest (P.state plant.new) config.now }
    ensures fit { RelationsFit (P.state plant.new) config.now }
    ensures told { IsTold h.new journal.new.events }
    ensures unarmed { (q : ℕ) → (P.state plant.old).read_fuse q ≡ None → (P.state plant.new).read_fuse q ≡ None }
    ensures faults { Counted (is_err result) (P.state plant.old).faults (P.state plant.new).faults }
    ensures moved { OnOk result (IsMoved (P.state plant.old) (P.state plant.new) config.now v.0 (pairs.synced (volume_seen (P.state plant.old) config.now v.0).fields t) (Some (t, bytes.now))) }
    ensures others { OthersStay (P.state plant.old) (P.state plant.new) config.now v.0 }
    ensures issued { h.new.issued ≡ h.old.issued }
    ensures room { journal.old.spare ≤ journal.new.spare + 1 }
    ensures spare { length journal.new.events + journal.new.spare ≡ length journal.old.events + journal.old.spare }
{
    let fields = peek_fields(plant, config, v);
    land_both_by(plant, config, journal, h, w, v, t, bytes, &fields)
}

/// The same by the primary's fields, which are at hand: of the record the gate alone is read.
pub(crate) fn land_both_by<P: Plant>(
    plant: &mut P,
    config: &Config,
    journal: &mut Journal,
    h: &mut Host,
    w: WriteId,
    v: VolumeId,
    t: u16,
    bytes: &Block,
    fields: &Fields,
) -> Result<(), Refusal>
    requires can { CanLand (P.state plant.old) config.now h.old journal.old.events w.0 v.0 t bytes.now fields.now }
    requires room { 1 ≤ journal.old.spare }
    ensures wrote { Wrote (P.state plant.old) (P.state plant.new) config.now h.old h.new journal.old journal.new (λ k. now (LandBoth w.0 v.0 t) ∷ []) 1 result }
    ensures refused { OnErr result (refusal_of result ≡ Some (stopped (volume_seen (P.state plant.old) config.now v.0).server)) }
    ensures moved { OnOk result (IsMoved (P.state plant.old) (P.state plant.new) config.now v.0 (pairs.synced (volume_seen (P.state plant.old) config.now v.0).fields t) (Some (t, bytes.now))) }
    ensures others { OthersStay (P.state plant.old) (P.state plant.new) config.now v.0 }
{
    let landing = Move::LandBoth { w, v, t };
    let track = *bytes;
    let mut next = *fields;
    let done = make_by(
        plant,
        config,
        journal,
        &landing,
        &mut next,
        Some((t, track)),
    );
    settle_write(h, w, done)
}
