//! What becomes of a target in an attempt: one move of it, or nothing.

ghost use Rattle.std.specs.Prelude.{◌≡◌, ℕ, ◌≤◌, ◌+◌, length, None, Some, OnOk, OnErr};
ghost use Rattle.dr_logic.specs.Counts.{Counted};
ghost use Rattle.dr_model.specs.Carry.{Entry};
ghost use Rattle.dr_model.specs.Refusals.{stopped};
ghost use Rattle.dr_volume.specs.Update.{OthersStay};
ghost use Rattle.dr_volume.specs.View.{Rest, volume_seen};
ghost use Rattle.dr_moves.specs.Checks.{is_stop};
ghost use Rattle.dr_moves.specs.Coming.{next_of, Went};
ghost use Rattle.dr_moves.specs.Fit.{RelationsFit};
ghost use Rattle.dr_moves.specs.Here.{world_seen, refusal_of, armed_in, IsAtRest};
ghost use Rattle.dr_moves.specs.Turns.{Advances, Halts};
ghost use Rattle.dr_moves.specs.Aside.{AsideFits};
ghost use Rattle.dr_revert.specs.Turns.{Turns};

use dr_config::Config;
use dr_ids::{Refusal, VolumeId};
use dr_model::Journal;
use dr_moves::{Next, act};
use dr_plant::Plant;

/// Does nothing, or makes a move of target v that carries no track and tells one event at most. Fails where the server stops in
/// the move or goes off at a read. The journal needs room for two events.
pub fn turn_target<P: Plant>(
    plant: &mut P,
    config: &Config,
    journal: &mut Journal,
    v: VolumeId,
    next: &Next,
) -> Result<(), Refusal>
    requires rest { IsAtRest (P.state plant.old) config.now }
    requires fit { RelationsFit (P.state plant.old) config.now }
    requires aside { AsideFits (P.state plant.old) config.now }
    requires turns { Turns (P.state plant.old) config.now v.0 next.now }
    requires room { 2 ≤ journal.old.spare }
    ensures advances { OnOk result ((r : Rest) (d : Entry) → d (world_seen (P.state plant.old) config.now r journal.old.events).control ≡ next_of next.now → Advances (world_seen (P.state plant.old) config.now r journal.old.events) d (world_seen (P.state plant.new) config.now r journal.new.events)) }
    ensures halts { OnErr result ((r : Rest) (d : Entry) → d (world_seen (P.state plant.old) config.now r journal.old.events).control ≡ next_of next.now → Halts (armed_in (P.state plant.old)) (world_seen (P.state plant.old) config.now r journal.old.events) d (world_seen (P.state plant.new) config.now r journal.new.events) (refusal_of result)) }
    ensures refused { OnErr result (refusal_of result ≡ Some (stopped (volume_seen (P.state plant.old) config.now v.0).server)) }
    ensures went { OnOk result (Went (P.state plant.old) (P.state plant.new) config.now next.now) }
    ensures rest { IsAtRest (P.state plant.new) config.now }
    ensures fit { RelationsFit (P.state plant.new) config.now }
    ensures aside { AsideFits (P.state plant.new) config.now }
    ensures unarmed { (q : ℕ) → (P.state plant.old).read_fuse q ≡ None → (P.state plant.new).read_fuse q ≡ None }
    ensures faults { Counted (is_stop (refusal_of result)) (P.state plant.old).faults (P.state plant.new).faults }
    ensures others { OthersStay (P.state plant.old) (P.state plant.new) config.now v.0 }
    ensures on { OnOk result ((P.state plant.new).on ≡ (P.state plant.old).on) }
    ensures room { journal.old.spare ≤ journal.new.spare + 2 }
    ensures room_left { OnOk result (journal.old.spare ≤ journal.new.spare + 1) }
    ensures spare { length journal.new.events + journal.new.spare ≡ length journal.old.events + journal.old.spare }
{
    act(plant, config, journal, next)
}
