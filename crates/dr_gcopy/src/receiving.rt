//! A secondary takes a track of its primary.

ghost use Rattle.std.specs.Prelude.{◌≡◌, ◌≢◌, ℕ, ◌<◌, ◌≤◌, ◌+◌, true, false, List, [], ◌∷◌, ◌++◌, length, None, Some, IsSome, OnOk, OnErr, is_err};
ghost use Rattle.dr_logic.specs.Counts.{Counted};
ghost use Rattle.dr_config.specs.Table.{StandsFor, place_of};
ghost use Rattle.dr_model.specs.declared.event.Event.{Event};
ghost use Rattle.dr_model.specs.Carry.{now};
ghost use Rattle.dr_model.specs.Entries.{copies_from, copy_first};
ghost use Rattle.dr_model.specs.Layout as layout;
ghost use Rattle.dr_model.specs.Moves.{Store};
ghost use Rattle.dr_model.specs.PairEntries as pair_entries;
ghost use Rattle.dr_model.specs.ReadStops.{Ends};
ghost use Rattle.dr_model.specs.Refusals.{stopped};
ghost use Rattle.dr_volume.specs.Update.{IsAsBefore};
ghost use Rattle.dr_volume.specs.View.{Rest, volume_seen, track_seen, ids_of};
ghost use Rattle.dr_moves.specs.Checks.{OnNone, is_stop};
ghost use Rattle.dr_moves.specs.Fit.{RelationsFit};
ghost use Rattle.dr_moves.specs.Here.{world_seen, refusal_of, armed_in, IsAtRest};
ghost use Rattle.dr_moves.specs.Turns.{Leads, Fails};
ghost use Rattle.dr_gcopy.specs.Sending.{stranger_refusal, receive_entries};

use crate::parts::is_secondary_by;
use crate::storing::store;
use dr_config::Config;
use dr_flash::{copy_first, is_revertible, relation_state};
use dr_ids::{Refusal, VolumeId};
use dr_model::Journal;
use dr_moves::secondary_state;
use dr_plant::{Block, Plant};
use dr_volume::peek_head;

/// The refusal where b isn't the secondary of a.
pub(crate) fn stranger_refusal<P: Plant>(
    plant: &P,
    config: &Config,
    a: VolumeId,
    b: VolumeId,
) -> Option<Refusal>
    requires stands { StandsFor config.now (P.state plant.now) }
    requires defined { IsSome (place_of config.now b.0) }
    ensures refusal { (r : Rest) (events : List Event) → result ≡ stranger_refusal a.0 b.0 (world_seen (P.state plant.now) config.now r events).control }
    ensures calm { is_stop result ≡ false }
    ensures secondary { OnNone result (layout.is_part (volume_seen (P.state plant.now) config.now b.0).fields.secondary ≡ true) }
{
    if is_secondary_by(&peek_head(plant, config, b), a) {
        return None;
    }
    Some(secondary_state(plant, config, b))
}

/// The refusal where b stands in a revertible relationship.
pub fn flashed_refusal<P: Plant>(plant: &P, config: &Config, b: VolumeId) -> Option<Refusal>
    requires stands { StandsFor config.now (P.state plant.now) }
    requires defined { IsSome (place_of config.now b.0) }
    ensures refusal { (r : Rest) (events : List Event) → result ≡ pair_entries.flashed_refusal b.0 (world_seen (P.state plant.now) config.now r events).control }
    ensures calm { is_stop result ≡ false }
{
    if is_revertible(plant, config, b) {
        return Some(relation_state(plant, config, b));
    }
    None
}

/// Secondary b, whose server is on, takes these bytes of track t of its primary a; with the last track of a Metro Mirror
/// pair it is Full Duplex. The caller knows both volumes, which are on two servers. Refused where b isn't the secondary
/// of a, or else where it stands in a revertible relationship. The targets of b keep the track first. Fails too where the
/// server stops in a move or goes off at a read; what was kept by then stays. The journal needs room for an event for
/// each volume and two more.
pub fn receive_track<P: Plant>(
    plant: &mut P,
    config: &Config,
    journal: &mut Journal,
    a: VolumeId,
    b: VolumeId,
    t: u16,
    bytes: &Block,
    last: bool,
) -> Result<(), Refusal>
    requires rest { IsAtRest (P.state plant.old) config.now }
    requires fit { RelationsFit (P.state plant.old) config.now }
    requires primary { IsSome (place_of config.now a.0) }
    requires secondary { IsSome (place_of config.now b.0) }
    requires running { (P.state plant.old).on (volume_seen (P.state plant.old) config.now b.0).server ≡ true }
    requires two_servers { (volume_seen (P.state plant.old) config.now a.0).server ≢ (volume_seen (P.state plant.old) config.now b.0).server }
    requires within { t < (volume_seen (P.state plant.old) config.now b.0).tracks }
    requires bytes { bytes.now ≡ track_seen (P.state plant.old) config.now a.0 t }
    requires room { length config.now.volumes + 2 ≤ journal.old.spare }
    ensures carried { (r : Rest) → Ends (armed_in (P.state plant.old)) (world_seen (P.state plant.new) config.now r journal.new.events) (refusal_of result) (world_seen (P.state plant.old) config.now r journal.old.events) (receive_entries (ids_of config.now.volumes) a.0 b.0 t last) }
    ensures leads { OnOk result ((r : Rest) → Leads (world_seen (P.state plant.old) config.now r journal.old.events) (receive_entries (ids_of config.now.volumes) a.0 b.0 t last) (world_seen (P.state plant.new) config.now r journal.new.events)) }
    ensures fails { OnErr result ((r : Rest) → Fails (armed_in (P.state plant.old)) (world_seen (P.state plant.old) config.now r journal.old.events) (receive_entries (ids_of config.now.volumes) a.0 b.0 t last) (world_seen (P.state plant.new) config.now r journal.new.events) (refusal_of result)) }
    ensures unchanged { is_stop (refusal_of result) ≡ false → OnErr result ((P.state plant.new ≡ P.state plant.old) × (journal.new ≡ journal.old)) }
    ensures rest { IsAtRest (P.state plant.new) config.now }
    ensures fit { RelationsFit (P.state plant.new) config.now }
    ensures unarmed { (q : ℕ) → (P.state plant.old).read_fuse q ≡ None → (P.state plant.new).read_fuse q ≡ None }
    ensures faults { Counted (is_stop (refusal_of result)) (P.state plant.old).faults (P.state plant.new).faults }
    ensures others { (q : ℕ) → q ≢ b.0 → copies_from b.0 (volume_seen (P.state plant.old) config.now q).fields ≡ false → IsAsBefore (P.state plant.old) (P.state plant.new) config.now q }
    ensures on { OnOk result ((P.state plant.new).on ≡ (P.state plant.old).on) }
    ensures room { journal.old.spare ≤ journal.new.spare + (length config.now.volumes + 2) }
    ensures room_left { OnOk result (journal.old.spare ≤ journal.new.spare + (length config.now.volumes + 1)) }
    ensures spare { length journal.new.events + journal.new.spare ≡ length journal.old.events + journal.old.spare }
{
    if let Some(why) = stranger_refusal(plant, config, a, b) {
        return Err(why);
    }
    if let Some(why) = flashed_refusal(plant, config, b) {
        return Err(why);
    }
    keep_and_store(plant, config, journal, a, b, t, bytes, last)
}

/// The targets of b keep track t, and then b stores these bytes of it, which are those of a.
fn keep_and_store<P: Plant>(
    plant: &mut P,
    config: &Config,
    journal: &mut Journal,
    a: VolumeId,
    b: VolumeId,
    t: u16,
    bytes: &Block,
    last: bool,
) -> Result<(), Refusal>
    requires rest { IsAtRest (P.state plant.old) config.now }
    requires fit { RelationsFit (P.state plant.old) config.now }
    requires defined { IsSome (place_of config.now b.0) }
    requires running { (P.state plant.old).on (volume_seen (P.state plant.old) config.now b.0).server ≡ true }
    requires secondary { layout.is_part (volume_seen (P.state plant.old) config.now b.0).fields.secondary ≡ true }
    requires two_servers { (volume_seen (P.state plant.old) config.now a.0).server ≢ (volume_seen (P.state plant.old) config.now b.0).server }
    requires within { t < (volume_seen (P.state plant.old) config.now b.0).tracks }
    requires bytes { bytes.now ≡ track_seen (P.state plant.old) config.now a.0 t }
    requires room { length config.now.volumes + 2 ≤ journal.old.spare }
    ensures leads { OnOk result ((r : Rest) → Leads (world_seen (P.state plant.old) config.now r journal.old.events) (copy_first (ids_of config.now.volumes) b.0 t ++ now (Store b.0 t a.0 last) ∷ []) (world_seen (P.state plant.new) config.now r journal.new.events)) }
    ensures fails { OnErr result ((r : Rest) → Fails (armed_in (P.state plant.old)) (world_seen (P.state plant.old) config.now r journal.old.events) (copy_first (ids_of config.now.volumes) b.0 t ++ now (Store b.0 t a.0 last) ∷ []) (world_seen (P.state plant.new) config.now r journal.new.events) (refusal_of result)) }
    ensures refused { OnErr result (refusal_of result ≡ Some (stopped (volume_seen (P.state plant.old) config.now b.0).server)) }
    ensures rest { IsAtRest (P.state plant.new) config.now }
    ensures fit { RelationsFit (P.state plant.new) config.now }
    ensures unarmed { (q : ℕ) → (P.state plant.old).read_fuse q ≡ None → (P.state plant.new).read_fuse q ≡ None }
    ensures faults { Counted (is_err result) (P.state plant.old).faults (P.state plant.new).faults }
    ensures others { (q : ℕ) → q ≢ b.0 → copies_from b.0 (volume_seen (P.state plant.old) config.now q).fields ≡ false → IsAsBefore (P.state plant.old) (P.state plant.new) config.now q }
    ensures on { OnOk result ((P.state plant.new).on ≡ (P.state plant.old).on) }
    ensures room { journal.old.spare ≤ journal.new.spare + (length config.now.volumes + 2) }
    ensures room_left { OnOk result (journal.old.spare ≤ journal.new.spare + (length config.now.volumes + 1)) }
    ensures spare { length journal.new.events + journal.new.spare ≡ length journal.old.events + journal.old.spare }
{
    copy_first(plant, config, journal, b, t)?;
    store(plant, config, journal, b, t, a, last, bytes)
}
