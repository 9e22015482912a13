//! A target is a member's no more.

ghost use Rattle.std.specs.Prelude.{◌≡◌, ℕ, ◌≤◌, ◌+◌, true, [], ◌∷◌, length, None, Some, IsSome, OnOk, OnErr, is_err};
ghost use Rattle.dr_logic.specs.Counts.{Counted};
ghost use Rattle.dr_config.specs.Table.{place_of};
ghost use Rattle.dr_model.specs.Carry.{now};
ghost use Rattle.dr_model.specs.Moves.{Leave};
ghost use Rattle.dr_model.specs.ReadStops.{Ends};
ghost use Rattle.dr_model.specs.Refusals.{stopped};
ghost use Rattle.dr_volume.specs.Update.{OthersStay};
ghost use Rattle.dr_volume.specs.View.{Rest, volume_seen};
ghost use Rattle.dr_moves.specs.Fit.{RelationsFit};
ghost use Rattle.dr_moves.specs.Here.{world_seen, refusal_of, armed_in, IsAtRest};
ghost use Rattle.dr_moves.specs.Turns.{Advances, Halts};

use dr_config::Config;
use dr_ids::{Refusal, SessionId, VolumeId};
use dr_model::Journal;
use dr_moves::{Move, make_move};
use dr_plant::Plant;

/// Target v, whose server is on, is no longer one of session s, of whose member a is the primary: what its control record
/// says of a member is gone. The journal is told. Fails where the server stops in the move or goes off at a read. The journal
/// needs room for two events.
pub fn leave<P: Plant>(
    plant: &mut P,
    config: &Config,
    journal: &mut Journal,
    v: VolumeId,
    a: VolumeId,
    s: SessionId,
) -> Result<(), Refusal>
    requires rest { IsAtRest (P.state plant.old) config.now }
    requires fit { RelationsFit (P.state plant.old) config.now }
    requires defined { IsSome (place_of config.now v.0) }
    requires running { (P.state plant.old).on (volume_seen (P.state plant.old) config.now v.0).server ≡ true }
    requires room { 2 ≤ journal.old.spare }
    ensures carried { (r : Rest) → Ends (armed_in (P.state plant.old)) (world_seen (P.state plant.new) config.now r journal.new.events) (refusal_of result) (world_seen (P.state plant.old) config.now r journal.old.events) (now (Leave v.0 a.0 s.0) ∷ []) }
    ensures advances { OnOk result ((r : Rest) → Advances (world_seen (P.state plant.old) config.now r journal.old.events) (now (Leave v.0 a.0 s.0)) (world_seen (P.state plant.new) config.now r journal.new.events)) }
    ensures halts { OnErr result ((r : Rest) → Halts (armed_in (P.state plant.old)) (world_seen (P.state plant.old) config.now r journal.old.events) (now (Leave v.0 a.0 s.0)) (world_seen (P.state plant.new) config.now r journal.new.events) (refusal_of result)) }
    ensures refused { OnErr result (refusal_of result ≡ Some (stopped (volume_seen (P.state plant.old) config.now v.0).server)) }
    ensures rest { IsAtRest (P.state plant.new) config.now }
    ensures fit { RelationsFit (P.state plant.new) config.now }
    ensures unarmed { (q : ℕ) → (P.state plant.old).read_fuse q ≡ None → (P.state plant.new).read_fuse q ≡ None }
    ensures faults { Counted (is_err result) (P.state plant.old).faults (P.state plant.new).faults }
    ensures others { OthersStay (P.state plant.old) (P.state plant.new) config.now v.0 }
    ensures on { OnOk result ((P.state plant.new).on ≡ (P.state plant.old).on) }
    ensures room { journal.old.spare ≤ journal.new.spare + 2 }
    ensures room_left { OnOk result (journal.old.spare ≡ journal.new.spare + 1) }
    ensures spare { length journal.new.events + journal.new.spare ≡ length journal.old.events + journal.old.spare }
{
    make_move(plant, config, journal, &Move::Leave { v, u: a, s }, None)
}
