//! Ending a relationship.

ghost use Rattle.std.specs.Prelude.{◌≡◌, ℕ, ◌<◌, ◌≤◌, ◌+◌, false, not, ◌&&◌, None, Some, IsSome, OnOk, OnErr, length, if◌then◌else◌};
ghost use Rattle.std.specs.FinSet.{contains};
ghost use Rattle.dr_logic.specs.Counts.{Counted};
ghost use Rattle.dr_logic.specs.Bytes.{zeros};
ghost use Rattle.dr_ids.specs.Sizes.{most_tracks};
ghost use Rattle.dr_config.specs.Table.{place_of};
ghost use Rattle.dr_model.specs.Carry.{now};
ghost use Rattle.dr_model.specs.Moves.{Withdraw};
ghost use Rattle.dr_model.specs.Plans.{withdraw_entries};
ghost use Rattle.dr_model.specs.ReadStops.{Ends};
ghost use Rattle.dr_volume.specs.Update.{OthersStay};
ghost use Rattle.dr_volume.specs.View.{Rest, volume_seen, track_seen};
ghost use Rattle.dr_moves.specs.Checks.{is_stop};
ghost use Rattle.dr_moves.specs.Fit.{RelationsFit};
ghost use Rattle.dr_moves.specs.Here.{world_seen, refusal_of, armed_in, IsAtRest};
ghost use Rattle.dr_flash.specs.Heads.{targets_by};
ghost use Rattle.dr_flash.specs.Views.{view_seen, OthersShow};

use crate::standing::{counted_refusal, relation_state};
use dr_config::Config;
use dr_ids::{Refusal, VolumeId};
use dr_model::Journal;
use dr_moves::{Move, make_move, server_of};
use dr_plant::Plant;
use dr_volume::{Head, peek_head};

/// Whether a volume with this head is a target of s, and neither revertible nor reversing.
fn is_plain_target(f: &Head, s: VolumeId) -> bool
    ensures { result ≡ (targets_by s.0 f.now && (not f.now.revertible && not f.now.reversing)) }
{
    f.related && f.source.0 == s.0 && !f.revertible && !f.reversing
}

/// Ends the relationship of target t of s; the caller knows both volumes. The tracks that t doesn't hold read zeros from then
/// on. Refused where the server of s is off, or else where t is the target of a member of a session, which is named, or else
/// where t is no target of s, or one that is revertible or reversing. Fails too where the server stops in the move or goes off
/// at a read. The journal needs room for an event for each track that a volume may have, and a stop.
pub fn withdraw<P: Plant>(
    plant: &mut P,
    config: &Config,
    journal: &mut Journal,
    s: VolumeId,
    t: VolumeId,
) -> Result<(), Refusal>
    requires rest { IsAtRest (P.state plant.old) config.now }
    requires fit { RelationsFit (P.state plant.old) config.now }
    requires source { IsSome (place_of config.now s.0) }
    requires target { IsSome (place_of config.now t.0) }
    requires room { most_tracks + 1 ≤ journal.old.spare }
    ensures carried { (r : Rest) → Ends (armed_in (P.state plant.old)) (world_seen (P.state plant.new) config.now r journal.new.events) (refusal_of result) (world_seen (P.state plant.old) config.now r journal.old.events)
        (withdraw_entries (world_seen (P.state plant.old) config.now r journal.old.events).control s.0 t.0) }
    ensures unchanged { is_stop (refusal_of result) ≡ false → OnErr result ((P.state plant.new ≡ P.state plant.old) × (journal.new ≡ journal.old)) }
    ensures rest { IsAtRest (P.state plant.new) config.now }
    ensures fit { RelationsFit (P.state plant.new) config.now }
    ensures unarmed { (q : ℕ) → (P.state plant.old).read_fuse q ≡ None → (P.state plant.new).read_fuse q ≡ None }
    ensures faults { Counted (is_stop (refusal_of result)) (P.state plant.old).faults (P.state plant.new).faults }
    ensures others { OthersStay (P.state plant.old) (P.state plant.new) config.now t.0 }
    ensures shows { OnOk result ((k : ℕ) → view_seen (P.state plant.new) config.now t.0 k ≡ (if contains (volume_seen (P.state plant.old) config.now t.0).fields.own k then track_seen (P.state plant.old) config.now t.0 k else zeros)) }
    ensures others_show { OthersShow (P.state plant.old) (P.state plant.new) config.now t.0 }
    ensures on { OnOk result ((P.state plant.new).on ≡ (P.state plant.old).on) }
    ensures room { journal.old.spare ≤ journal.new.spare + (most_tracks + 1) }
    ensures spare { length journal.new.events + journal.new.spare ≡ length journal.old.events + journal.old.spare }
{
    let server = server_of(config, s);
    if !plant.is_on(server.0) {
        return Err(Refusal::ServerOff { server });
    }
    let head = peek_head(plant, config, t);
    if let Some(why) = counted_refusal(&head) {
        return Err(why);
    }
    if !is_plain_target(&head, s) {
        return Err(relation_state(plant, config, t));
    }
    make_move(plant, config, journal, &Move::Withdraw { v: t }, None)
}
