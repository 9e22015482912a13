//! A target is made a copy of its source anew.

ghost use Rattle.std.specs.Prelude.{◌≡◌, ℕ, ◌<◌, ◌≤◌, ◌+◌, true, false, length, None, Some, IsSome, OnOk, OnErr};
ghost use Rattle.dr_logic.specs.Counts.{Counted};
ghost use Rattle.dr_config.specs.Table.{place_of};
ghost use Rattle.dr_model.specs.ReadStops.{Ends};
ghost use Rattle.dr_model.specs.Refusals.{stopped};
ghost use Rattle.dr_model.specs.Relations as relations;
ghost use Rattle.dr_volume.specs.Update.{IsMoved, OthersStay};
ghost use Rattle.dr_volume.specs.View.{Rest, volume_seen, track_seen};
ghost use Rattle.dr_moves.specs.Checks.{is_stop};
ghost use Rattle.dr_moves.specs.Fit.{RelationsFit};
ghost use Rattle.dr_moves.specs.Here.{world_seen, refusal_of, armed_in, IsAtRest};
ghost use Rattle.dr_moves.specs.Turns.{Leads, Fails};
ghost use Rattle.dr_flash.specs.Views.{view_seen};
ghost use Rattle.dr_incr.specs.Copies.{HoldsUnchanged};
ghost use Rattle.dr_incr.specs.Steps.{resync_entries};

use crate::checks::target_refusal;
use dr_config::Config;
use dr_flash::counted_refusal;
use dr_ids::{Refusal, VolumeId};
use dr_model::Journal;
use dr_moves::{Move, make_move};
use dr_plant::Plant;
use dr_volume::peek_head;

/// Makes target t a copy of its source s anew: t shares the tracks that changed on either side with s again, and gets the
/// sequence number where one is given; then each track of t reads as that of s, where what t held unchanged was the same.
/// The caller knows both volumes. Refused where the server of s is off, then where t is the target of a member of a session,
/// and then where t is no target of s whose changes are recorded, or is revertible or restored. Fails too where the server
/// stops in the move or goes off at a read. The journal needs room for two events.
pub fn resync<P: Plant>(
    plant: &mut P,
    config: &Config,
    journal: &mut Journal,
    s: VolumeId,
    t: VolumeId,
    sequence: Option<u32>,
) -> Result<(), Refusal>
    requires rest { IsAtRest (P.state plant.old) config.now }
    requires fit { RelationsFit (P.state plant.old) config.now }
    requires source { IsSome (place_of config.now s.0) }
    requires target { IsSome (place_of config.now t.0) }
    requires room { 2 ≤ journal.old.spare }
    ensures carried { (r : Rest) → Ends (armed_in (P.state plant.old)) (world_seen (P.state plant.new) config.now r journal.new.events) (refusal_of result) (world_seen (P.state plant.old) config.now r journal.old.events) (resync_entries (world_seen (P.state plant.old) config.now r journal.old.events).control s.0 t.0 sequence) }
    ensures leads { OnOk result ((r : Rest) → Leads (world_seen (P.state plant.old) config.now r journal.old.events) (resync_entries (world_seen (P.state plant.old) config.now r journal.old.events).control s.0 t.0 sequence) (world_seen (P.state plant.new) config.now r journal.new.events)) }
    ensures fails { OnErr result ((r : Rest) → Fails (armed_in (P.state plant.old)) (world_seen (P.state plant.old) config.now r journal.old.events) (resync_entries (world_seen (P.state plant.old) config.now r journal.old.events).control s.0 t.0 sequence) (world_seen (P.state plant.new) config.now r journal.new.events) (refusal_of result)) }
    ensures unchanged { is_stop (refusal_of result) ≡ false → OnErr result ((P.state plant.new ≡ P.state plant.old) × (journal.new ≡ journal.old)) }
    ensures moved { OnOk result (IsMoved (P.state plant.old) (P.state plant.new) config.now t.0 (relations.resynced sequence (volume_seen (P.state plant.old) config.now t.0).fields) None) }
    ensures same { OnOk result (HoldsUnchanged (P.state plant.old) config.now t.0 → (k : ℕ) → view_seen (P.state plant.new) config.now t.0 k ≡ track_seen (P.state plant.new) config.now s.0 k) }
    ensures refused { is_stop (refusal_of result) ≡ true → refusal_of result ≡ Some (stopped (volume_seen (P.state plant.old) config.now s.0).server) }
    ensures rest { IsAtRest (P.state plant.new) config.now }
    ensures fit { RelationsFit (P.state plant.new) config.now }
    ensures unarmed { (q : ℕ) → (P.state plant.old).read_fuse q ≡ None → (P.state plant.new).read_fuse q ≡ None }
    ensures faults { Counted (is_stop (refusal_of result)) (P.state plant.old).faults (P.state plant.new).faults }
    ensures others { OthersStay (P.state plant.old) (P.state plant.new) config.now t.0 }
    ensures on { OnOk result ((P.state plant.new).on ≡ (P.state plant.old).on) }
    ensures room { journal.old.spare ≤ journal.new.spare + 2 }
    ensures room_left { OnOk result (journal.old.spare ≤ journal.new.spare + 1) }
    ensures spare { length journal.new.events + journal.new.spare ≡ length journal.old.events + journal.old.spare }
{
    let first = counted_refusal(&peek_head(plant, config, t));
    if let Some(why) = target_refusal(plant, config, s, t, first) {
        return Err(why);
    }
    make_move(
        plant,
        config,
        journal,
        &Move::Resync { v: t, sequence },
        None,
    )
}
