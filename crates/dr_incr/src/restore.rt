//! A target is restored onto its source, track by track.

ghost use Rattle.std.specs.Prelude.{◌≡◌, ◌≢◌, ℕ, ◌<◌, ◌≤◌, ◌+◌, true, false, ◌||◌, nat_eq, [], ◌∷◌, length, None, Some, IsSome, IfOk, OnOk, OnErr, is_err, is_some};
ghost use Rattle.dr_logic.specs.Counts.{Counted};
ghost use Rattle.dr_config.specs.Table.{place_of};
ghost use Rattle.dr_model.specs.Carry.{now};
ghost use Rattle.dr_model.specs.Entries.{copies_from, give_back, for_lowest};
ghost use Rattle.dr_model.specs.Moves.{Release};
ghost use Rattle.dr_model.specs.ReadStops.{Ends};
ghost use Rattle.dr_model.specs.Refusals.{stopped};
ghost use Rattle.dr_model.specs.Relations as relations;
ghost use Rattle.dr_volume.specs.Update.{IsAsBefore, IsMoved, OthersStay};
ghost use Rattle.dr_volume.specs.View.{Rest, volume_seen, track_seen, ids_of};
ghost use Rattle.dr_moves.specs.Checks.{is_stop};
ghost use Rattle.dr_moves.specs.Fit.{RelationsFit};
ghost use Rattle.dr_moves.specs.Here.{world_seen, refusal_of, armed_in, IsAtRest};
ghost use Rattle.dr_moves.specs.Turns.{Leads, Fails};
ghost use Rattle.dr_incr.specs.Copies.{HoldsUnchanged, BlankAreZeros, Restores};
ghost use Rattle.dr_incr.specs.Steps.{HasFitSets, IsAsked, IsRestoredOnto, reverse_entries};

use crate::checks::{lone_refusal, target_refusal};
use crate::moves::take_back;
use crate::others::keep_others;
use dr_config::Config;
use dr_ids::{Refusal, VolumeId};
use dr_model::Journal;
use dr_moves::{Move, lowest, make_move, tracks_of};
use dr_plant::Plant;
use dr_volume::peek_fields;

/// Begins to restore target t onto its source s: the tracks that changed on either side are to come back. Where nothing
/// changed the restore ends at once. The caller knows both volumes. Where t is a member's target, the caller says what the
/// sessions say: in `unsettled` why it can't be restored, and in `left` the primary of the member, whose session it leaves
/// by the restore. Refused where the server of s is off, then as `unsettled` says, then where t is no target of s whose
/// changes are recorded, or is revertible or restored, and then where another target of s is. Fails too where the server
/// stops in the move or goes off at a read. The journal needs room for an event for each track and three more: that t leaves
/// its session, that the restore has ended, and a stop. Where what t held unchanged was the same as its source's, t shows
/// what it showed; where nothing changed, s has that, and t reads zeros.
pub fn reverse_start<P: Plant>(
    plant: &mut P,
    config: &Config,
    journal: &mut Journal,
    s: VolumeId,
    t: VolumeId,
    unsettled: Option<Refusal>,
    left: Option<VolumeId>,
) -> Result<(), Refusal>
    requires rest { IsAtRest (P.state plant.old) config.now }
    requires fit { RelationsFit (P.state plant.old) config.now }
    requires source { IsSome (place_of config.now s.0) }
    requires target { IsSome (place_of config.now t.0) }
    requires sets { HasFitSets (volume_seen (P.state plant.old) config.now t.0).fields }
    requires calm { is_stop unsettled ≡ false }
    requires room { (volume_seen (P.state plant.old) config.now t.0).tracks + 3 ≤ journal.old.spare }
    ensures carried { (r : Rest) → IsAsked (world_seen (P.state plant.old) config.now r journal.old.events).control t.0 unsettled left → Ends (armed_in (P.state plant.old)) (world_seen (P.state plant.new) config.now r journal.new.events) (refusal_of result) (world_seen (P.state plant.old) config.now r journal.old.events) (reverse_entries (world_seen (P.state plant.old) config.now r journal.old.events).control s.0 t.0) }
    ensures leads { OnOk result ((r : Rest) → IsAsked (world_seen (P.state plant.old) config.now r journal.old.events).control t.0 unsettled left → Leads (world_seen (P.state plant.old) config.now r journal.old.events) (reverse_entries (world_seen (P.state plant.old) config.now r journal.old.events).control s.0 t.0) (world_seen (P.state plant.new) config.now r journal.new.events)) }
    ensures fails { OnErr result ((r : Rest) → IsAsked (world_seen (P.state plant.old) config.now r journal.old.events).control t.0 unsettled left → Fails (armed_in (P.state plant.old)) (world_seen (P.state plant.old) config.now r journal.old.events) (reverse_entries (world_seen (P.state plant.old) config.now r journal.old.events).control s.0 t.0) (world_seen (P.state plant.new) config.now r journal.new.events) (refusal_of result)) }
    ensures unchanged { is_stop (refusal_of result) ≡ false → OnErr result ((P.state plant.new ≡ P.state plant.old) × (journal.new ≡ journal.old)) }
    ensures moved { OnOk result (IsMoved (P.state plant.old) (P.state plant.new) config.now t.0 (relations.restored (volume_seen (P.state plant.old) config.now t.0).tracks (relations.turned (volume_seen (P.state plant.old) config.now t.0).fields)) None) }
    ensures restores { OnOk result (HoldsUnchanged (P.state plant.old) config.now t.0 → Restores (P.state plant.old) (P.state plant.new) config.now s.0 t.0) }
    ensures refused { is_stop (refusal_of result) ≡ true → refusal_of result ≡ Some (stopped (volume_seen (P.state plant.old) config.now s.0).server) }
    ensures rest { IsAtRest (P.state plant.new) config.now }
    ensures fit { RelationsFit (P.state plant.new) config.now }
    ensures unarmed { (q : ℕ) → (P.state plant.old).read_fuse q ≡ None → (P.state plant.new).read_fuse q ≡ None }
    ensures faults { Counted (is_stop (refusal_of result)) (P.state plant.old).faults (P.state plant.new).faults }
    ensures others { OthersStay (P.state plant.old) (P.state plant.new) config.now t.0 }
    ensures on { OnOk result ((P.state plant.new).on ≡ (P.state plant.old).on) }
    ensures room { journal.old.spare ≤ journal.new.spare + ((volume_seen (P.state plant.old) config.now t.0).tracks + 3) }
    ensures room_left { OnOk result (journal.old.spare ≤ journal.new.spare + ((volume_seen (P.state plant.old) config.now t.0).tracks + 2)) }
    ensures spare { length journal.new.events + journal.new.spare ≡ length journal.old.events + journal.old.spare }
{
    if let Some(why) = target_refusal(plant, config, s, t, unsettled) {
        return Err(why);
    }
    if let Some(why) = lone_refusal(plant, config, s, t) {
        return Err(why);
    }
    make_move(plant, config, journal, &Move::Reverse { v: t, left }, None)
}

/// Target t, which is restored and whose server is on, gives up the lowest track that it holds, which its source holds by
/// now. With the last one the restore ends: each track of t then reads zeros. Fails where the server stops in the move or
/// goes off at a read. The journal needs room for an event for each track and two more.
pub fn reverse_finish<P: Plant>(
    plant: &mut P,
    config: &Config,
    journal: &mut Journal,
    t: VolumeId,
) -> Result<(), Refusal>
    requires rest { IsAtRest (P.state plant.old) config.now }
    requires fit { RelationsFit (P.state plant.old) config.now }
    requires defined { IsSome (place_of config.now t.0) }
    requires running { (P.state plant.old).on (volume_seen (P.state plant.old) config.now t.0).server ≡ true }
    requires reversing { (volume_seen (P.state plant.old) config.now t.0).fields.reversing ≡ true }
    requires held { IsSome (relations.lowest (volume_seen (P.state plant.old) config.now t.0).tracks (volume_seen (P.state plant.old) config.now t.0).fields.own) }
    requires room { (volume_seen (P.state plant.old) config.now t.0).tracks + 2 ≤ journal.old.spare }
    ensures carried { (r : Rest) → Ends (armed_in (P.state plant.old)) (world_seen (P.state plant.new) config.now r journal.new.events) (refusal_of result) (world_seen (P.state plant.old) config.now r journal.old.events) (for_lowest t.0 (λ k. now (Release t.0 k)) ∷ []) }
    ensures leads { OnOk result ((r : Rest) → Leads (world_seen (P.state plant.old) config.now r journal.old.events) (for_lowest t.0 (λ k. now (Release t.0 k)) ∷ []) (world_seen (P.state plant.new) config.now r journal.new.events)) }
    ensures fails { OnErr result ((r : Rest) → Fails (armed_in (P.state plant.old)) (world_seen (P.state plant.old) config.now r journal.old.events) (for_lowest t.0 (λ k. now (Release t.0 k)) ∷ []) (world_seen (P.state plant.new) config.now r journal.new.events) (refusal_of result)) }
    ensures moved { (k : ℕ) → relations.lowest (volume_seen (P.state plant.old) config.now t.0).tracks (volume_seen (P.state plant.old) config.now t.0).fields.own ≡ Some k → OnOk result (IsMoved (P.state plant.old) (P.state plant.new) config.now t.0 (relations.restored (volume_seen (P.state plant.old) config.now t.0).tracks (relations.given_up (volume_seen (P.state plant.old) config.now t.0).fields k)) None) }
    ensures refused { OnErr result (refusal_of result ≡ Some (stopped (volume_seen (P.state plant.old) config.now t.0).server)) }
    ensures rest { IsAtRest (P.state plant.new) config.now }
    ensures fit { RelationsFit (P.state plant.new) config.now }
    ensures unarmed { (q : ℕ) → (P.state plant.old).read_fuse q ≡ None → (P.state plant.new).read_fuse q ≡ None }
    ensures faults { Counted (is_err result) (P.state plant.old).faults (P.state plant.new).faults }
    ensures others { OthersStay (P.state plant.old) (P.state plant.new) config.now t.0 }
    ensures on { OnOk result ((P.state plant.new).on ≡ (P.state plant.old).on) }
    ensures goes_on { OnOk result ((s : ℕ) → IsRestoredOnto s (volume_seen (P.state plant.old) config.now t.0).fields → IsRestoredOnto s (volume_seen (P.state plant.new) config.now t.0).fields) }
    ensures room { journal.old.spare ≤ journal.new.spare + ((volume_seen (P.state plant.old) config.now t.0).tracks + 2) }
    ensures room_left { OnOk result (journal.old.spare ≤ journal.new.spare + ((volume_seen (P.state plant.old) config.now t.0).tracks + 1)) }
    ensures spare { length journal.new.events + journal.new.spare ≡ length journal.old.events + journal.old.spare }
{
    let fields = peek_fields(plant, config, t);
    let k = lowest(tracks_of(config, t), &fields.own).unwrap();
    make_move(plant, config, journal, &Move::Release { v: t, t: k }, None)
}

/// Track k, the lowest that t holds, comes back to s, the source of t.
fn give_back<P: Plant>(
    plant: &mut P,
    config: &Config,
    journal: &mut Journal,
    s: VolumeId,
    t: VolumeId,
    k: u16,
) -> Result<(), Refusal>
    requires rest { IsAtRest (P.state plant.old) config.now }
    requires fit { RelationsFit (P.state plant.old) config.now }
    requires defined { IsSome (place_of config.now t.0) }
    requires running { (P.state plant.old).on (volume_seen (P.state plant.old) config.now t.0).server ≡ true }
    requires copies { copies_from s.0 (volume_seen (P.state plant.old) config.now t.0).fields ≡ true }
    requires reversing { (volume_seen (P.state plant.old) config.now t.0).fields.reversing ≡ true }
    requires held { relations.lowest (volume_seen (P.state plant.old) config.now t.0).tracks (volume_seen (P.state plant.old) config.now t.0).fields.own ≡ Some k }
    requires room { length config.now.volumes + (volume_seen (P.state plant.old) config.now t.0).tracks + 3 ≤ journal.old.spare }
    ensures leads { OnOk result ((r : Rest) → Leads (world_seen (P.state plant.old) config.now r journal.old.events) (give_back (ids_of config.now.volumes) s.0 t.0) (world_seen (P.state plant.new) config.now r journal.new.events)) }
    ensures fails { OnErr result ((r : Rest) → Fails (armed_in (P.state plant.old)) (world_seen (P.state plant.old) config.now r journal.old.events) (give_back (ids_of config.now.volumes) s.0 t.0) (world_seen (P.state plant.new) config.now r journal.new.events) (refusal_of result)) }
    ensures moved { OnOk result (IsMoved (P.state plant.old) (P.state plant.new) config.now t.0 (relations.restored (volume_seen (P.state plant.old) config.now t.0).tracks (relations.given_up (volume_seen (P.state plant.old) config.now t.0).fields k)) None) }
    ensures back { OnOk result (track_seen (P.state plant.new) config.now s.0 k ≡ track_seen (P.state plant.old) config.now t.0 k) }
    ensures kept { OnOk result (BlankAreZeros (P.state plant.old) config.now s.0 → (q : ℕ) → q ≢ k → track_seen (P.state plant.new) config.now s.0 q ≡ track_seen (P.state plant.old) config.now s.0 q) }
    ensures refused { OnErr result (refusal_of result ≡ Some (stopped (volume_seen (P.state plant.old) config.now t.0).server)) }
    ensures rest { IsAtRest (P.state plant.new) config.now }
    ensures fit { RelationsFit (P.state plant.new) config.now }
    ensures unarmed { (q : ℕ) → (P.state plant.old).read_fuse q ≡ None → (P.state plant.new).read_fuse q ≡ None }
    ensures faults { Counted (is_err result) (P.state plant.old).faults (P.state plant.new).faults }
    ensures others { (q : ℕ) → (copies_from s.0 (volume_seen (P.state plant.old) config.now q).fields || nat_eq q s.0) ≡ false → IsAsBefore (P.state plant.old) (P.state plant.new) config.now q }
    ensures on { OnOk result ((P.state plant.new).on ≡ (P.state plant.old).on) }
    ensures goes_on { OnOk result ((s : ℕ) → IsRestoredOnto s (volume_seen (P.state plant.old) config.now t.0).fields → IsRestoredOnto s (volume_seen (P.state plant.new) config.now t.0).fields) }
    ensures room { journal.old.spare ≤ journal.new.spare + (length config.now.volumes + (volume_seen (P.state plant.old) config.now t.0).tracks + 3) }
    ensures room_left { OnOk result (journal.old.spare ≤ journal.new.spare + (length config.now.volumes + (volume_seen (P.state plant.old) config.now t.0).tracks + 2)) }
    ensures spare { length journal.new.events + journal.new.spare ≡ length journal.old.events + journal.old.spare }
{
    keep_others(plant, config, journal, s, k, t)?;
    take_back(plant, config, journal, s, k, t)?;
    reverse_finish(plant, config, journal, t)
}

/// One track of a volume t whose server is on, and which is restored where it is a target, comes back to the source of t:
/// the lowest that t holds.
/// The other targets of the source keep theirs first; then the source stores the track, and t gives it up; with the last
/// one the restore ends. False exactly where t holds no track, and then nothing changes. Fails where the server stops in a
/// move or goes off at a read; what was done by then stays. The journal needs room for an event for each volume, one for
/// each track of t and three more. Where the source's blank tracks are zeros, t shows what it showed; with the last track the
/// source has that, and t reads zeros.
pub fn reverse_step<P: Plant>(
    plant: &mut P,
    config: &Config,
    journal: &mut Journal,
    t: VolumeId,
) -> Result<bool, Refusal>
    requires rest { IsAtRest (P.state plant.old) config.now }
    requires fit { RelationsFit (P.state plant.old) config.now }
    requires defined { IsSome (place_of config.now t.0) }
    requires running { (P.state plant.old).on (volume_seen (P.state plant.old) config.now t.0).server ≡ true }
    requires reversing { (volume_seen (P.state plant.old) config.now t.0).fields.related ≡ true → (volume_seen (P.state plant.old) config.now t.0).fields.reversing ≡ true }
    requires room { length config.now.volumes + (volume_seen (P.state plant.old) config.now t.0).tracks + 3 ≤ journal.old.spare }
    ensures carried { (s : ℕ) → IsRestoredOnto s (volume_seen (P.state plant.old) config.now t.0).fields → (r : Rest) → Ends (armed_in (P.state plant.old)) (world_seen (P.state plant.new) config.now r journal.new.events) (refusal_of result) (world_seen (P.state plant.old) config.now r journal.old.events) (give_back (ids_of config.now.volumes) s t.0) }
    ensures leads { OnOk result ((s : ℕ) → IsRestoredOnto s (volume_seen (P.state plant.old) config.now t.0).fields → (r : Rest) → Leads (world_seen (P.state plant.old) config.now r journal.old.events) (give_back (ids_of config.now.volumes) s t.0) (world_seen (P.state plant.new) config.now r journal.new.events)) }
    ensures fails { OnErr result ((s : ℕ) → IsRestoredOnto s (volume_seen (P.state plant.old) config.now t.0).fields → (r : Rest) → Fails (armed_in (P.state plant.old)) (world_seen (P.state plant.old) config.now r journal.old.events) (give_back (ids_of config.now.volumes) s t.0) (world_seen (P.state plant.new) config.now r journal.new.events) (refusal_of result)) }
    ensures found { IfOk result (λ b. b ≡ is_some (relations.lowest (volume_seen (P.state plant.old) config.now t.0).tracks (volume_seen (P.state plant.old) config.now t.0).fields.own)) }
    ensures none { IfOk result (λ b. b ≡ false → (P.state plant.new ≡ P.state plant.old) × (journal.new ≡ journal.old)) }
    ensures moved { (k : ℕ) → relations.lowest (volume_seen (P.state plant.old) config.now t.0).tracks (volume_seen (P.state plant.old) config.now t.0).fields.own ≡ Some k → OnOk result (IsMoved (P.state plant.old) (P.state plant.new) config.now t.0 (relations.restored (volume_seen (P.state plant.old) config.now t.0).tracks (relations.given_up (volume_seen (P.state plant.old) config.now t.0).fields k)) None) }
    ensures back { (k : ℕ) → relations.lowest (volume_seen (P.state plant.old) config.now t.0).tracks (volume_seen (P.state plant.old) config.now t.0).fields.own ≡ Some k → OnOk result (track_seen (P.state plant.new) config.now (volume_seen (P.state plant.old) config.now t.0).fields.source k ≡ track_seen (P.state plant.old) config.now t.0 k) }
    ensures restores { OnOk result ((s : ℕ) → IsRestoredOnto s (volume_seen (P.state plant.old) config.now t.0).fields → (volume_seen (P.state plant.old) config.now t.0).fields.related ≡ true → BlankAreZeros (P.state plant.old) config.now s → Restores (P.state plant.old) (P.state plant.new) config.now s t.0) }
    ensures refused { OnErr result (refusal_of result ≡ Some (stopped (volume_seen (P.state plant.old) config.now t.0).server)) }
    ensures rest { IsAtRest (P.state plant.new) config.now }
    ensures fit { RelationsFit (P.state plant.new) config.now }
    ensures unarmed { (q : ℕ) → (P.state plant.old).read_fuse q ≡ None → (P.state plant.new).read_fuse q ≡ None }
    ensures faults { Counted (is_err result) (P.state plant.old).faults (P.state plant.new).faults }
    ensures others { (q : ℕ) → (copies_from (volume_seen (P.state plant.old) config.now t.0).fields.source (volume_seen (P.state plant.old) config.now q).fields || nat_eq q (volume_seen (P.state plant.old) config.now t.0).fields.source) ≡ false → IsAsBefore (P.state plant.old) (P.state plant.new) config.now q }
    ensures on { OnOk result ((P.state plant.new).on ≡ (P.state plant.old).on) }
    ensures goes_on { OnOk result ((s : ℕ) → IsRestoredOnto s (volume_seen (P.state plant.old) config.now t.0).fields → IsRestoredOnto s (volume_seen (P.state plant.new) config.now t.0).fields) }
    ensures room { journal.old.spare ≤ journal.new.spare + (length config.now.volumes + (volume_seen (P.state plant.old) config.now t.0).tracks + 3) }
    ensures room_left { OnOk result (journal.old.spare ≤ journal.new.spare + (length config.now.volumes + (volume_seen (P.state plant.old) config.now t.0).tracks + 2)) }
    ensures spare { length journal.new.events + journal.new.spare ≡ length journal.old.events + journal.old.spare }
{
    let fields = peek_fields(plant, config, t);
    let Some(k) = lowest(tracks_of(config, t), &fields.own) else {
        return Ok(false);
    };
    give_back(plant, config, journal, fields.source, t, k)?;
    Ok(true)
}
