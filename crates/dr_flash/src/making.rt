//! Making a relationship.

ghost use Rattle.std.specs.Prelude.{◌≡◌, ◌≢◌, ℕ, ◌<◌, ◌≤◌, ◌+◌, List, [], ◌∷◌, true, false, None, Some, IsSome, OnOk, OnErr, length};
ghost use Rattle.dr_logic.specs.Counts.{Counted};
ghost use Rattle.dr_plant.specs.State.{PlantState};
ghost use Rattle.dr_config.specs.Table.{StandsFor, place_of};
ghost use Rattle.dr_model.specs.declared.event.Event.{Event};
ghost use Rattle.dr_model.specs.Carry.{now};
ghost use Rattle.dr_model.specs.Moves.{Relate};
ghost use Rattle.dr_model.specs.Plans.{alike_checks, free_checks, establish_checks, flash_entries};
ghost use Rattle.dr_model.specs.ReadStops.{Ends};
ghost use Rattle.dr_model.specs.Refusals.{stopped};
ghost use Rattle.dr_volume.specs.Update.{OthersStay};
ghost use Rattle.dr_volume.specs.View.{Rest, volume_seen};
ghost use Rattle.dr_moves.specs.Checks.{Checked, OnNone, is_stop};
ghost use Rattle.dr_moves.specs.Fit.{RelationsFit};
ghost use Rattle.dr_moves.specs.Here.{world_seen, refusal_of, armed_in, IsAtRest};
ghost use Rattle.dr_moves.specs.Made.{MayRelate};
ghost use Rattle.dr_moves.specs.Options.{choices};
ghost use Rattle.dr_flash.specs.Views.{view_seen, OthersShow};

use crate::standing::{look_at_targets, relation_state};
use dr_config::Config;
use dr_ids::{Kind, Refusal, VolumeId, Which};
use dr_model::Journal;
use dr_moves::{FlashOptions, Move, is_unpaired, make_move, pair_state, server_of, tracks_of};
use dr_plant::Plant;
use dr_volume::peek_head;

/// How many targets a source has at most.
const MOST_TARGETS: usize = 12;

/// Why two volumes can't be source and target: they are one, or their servers or sizes differ.
fn alike_refusal(config: &Config, s: VolumeId, t: VolumeId) -> Option<Refusal>
    requires source { IsSome (place_of config.now s.0) }
    requires target { IsSome (place_of config.now t.0) }
    ensures checked { (x : PlantState) (r : Rest) (events : List Event) → Checked (world_seen x config.now r events) (alike_checks s.0 t.0) result }
    ensures calm { is_stop result ≡ false }
    ensures apart { OnNone result (s.0 ≢ t.0) }
    ensures server { OnNone result ((x : PlantState) → (volume_seen x config.now t.0).server ≡ (volume_seen x config.now s.0).server) }
    ensures size { OnNone result ((x : PlantState) → (volume_seen x config.now t.0).tracks ≡ (volume_seen x config.now s.0).tracks) }
{
    if s.0 == t.0 {
        return Some(Refusal::Duplicate { kind: Kind::Volume });
    }
    if server_of(config, s).0 != server_of(config, t).0 {
        return Some(Refusal::Limit {
            which: Which::Server,
        });
    }
    if tracks_of(config, s) != tracks_of(config, t) {
        return Some(Refusal::Limit { which: Which::Size });
    }
    None
}

/// Why t can't become a target of s: t stands in a relationship, s is a target, t has a part in a pair, or s has 12
/// targets.
fn free_refusal<P: Plant>(plant: &P, config: &Config, s: VolumeId, t: VolumeId) -> Option<Refusal>
    requires stands { StandsFor config.now (P.state plant.now) }
    requires source { IsSome (place_of config.now s.0) }
    requires target { IsSome (place_of config.now t.0) }
    ensures checked { (r : Rest) (events : List Event) → Checked (world_seen (P.state plant.now) config.now r events) (free_checks (world_seen (P.state plant.now) config.now r events).control s.0 t.0) result }
    ensures calm { is_stop result ≡ false }
    ensures lone { OnNone result ((u : ℕ) → (volume_seen (P.state plant.now) config.now u).fields.related ≡ true → (volume_seen (P.state plant.now) config.now u).fields.source ≢ t.0) }
    ensures plain { OnNone result ((volume_seen (P.state plant.now) config.now s.0).fields.related ≡ false) }
{
    let target = peek_head(plant, config, t);
    if target.related {
        return Some(relation_state(plant, config, t));
    }
    if look_at_targets(plant, config, t).count > 0 {
        return Some(relation_state(plant, config, t));
    }
    if peek_head(plant, config, s).related {
        return Some(relation_state(plant, config, s));
    }
    if !is_unpaired(&target) {
        return Some(pair_state(plant, config, t));
    }
    if look_at_targets(plant, config, s).count >= MOST_TARGETS {
        return Some(Refusal::Limit {
            which: Which::Targets,
        });
    }
    None
}

/// Why t can't become a target of s, which both are there. In this order: the server of s is off, s and t are one, their servers or
/// sizes differ, t is a target or a source, s is a target, t has a part in a pair, or s has 12 targets. Where nothing is refused the
/// move may come (`may`).
pub fn establish_refusal<P: Plant>(
    plant: &P,
    config: &Config,
    s: VolumeId,
    t: VolumeId,
) -> Option<Refusal>
    requires stands { StandsFor config.now (P.state plant.now) }
    requires source { IsSome (place_of config.now s.0) }
    requires target { IsSome (place_of config.now t.0) }
    ensures checked { (r : Rest) (events : List Event) → Checked (world_seen (P.state plant.now) config.now r events) (establish_checks (world_seen (P.state plant.now) config.now r events).control s.0 t.0) result }
    ensures calm { is_stop result ≡ false }
    ensures running { OnNone result ((P.state plant.now).on (volume_seen (P.state plant.now) config.now s.0).server ≡ true) }
    ensures may { OnNone result (MayRelate (P.state plant.now) config.now t.0 s.0) }
{
    let server = server_of(config, s);
    if !plant.is_on(server.0) {
        return Some(Refusal::ServerOff { server });
    }
    if let Some(why) = alike_refusal(config, s, t) {
        return Some(why);
    }
    free_refusal(plant, config, s, t)
}

/// Makes t a target of s, which nothing refuses. Fails where the server stops in the move or goes off at a read. The journal needs
/// room for two events.
pub fn make_target<P: Plant>(
    plant: &mut P,
    config: &Config,
    journal: &mut Journal,
    s: VolumeId,
    t: VolumeId,
    o: &FlashOptions,
) -> Result<(), Refusal>
    requires rest { IsAtRest (P.state plant.old) config.now }
    requires fit { RelationsFit (P.state plant.old) config.now }
    requires target { IsSome (place_of config.now t.0) }
    requires running { (P.state plant.old).on (volume_seen (P.state plant.old) config.now s.0).server ≡ true }
    requires may { MayRelate (P.state plant.old) config.now t.0 s.0 }
    requires room { 2 ≤ journal.old.spare }
    ensures carried { (r : Rest) → Ends (armed_in (P.state plant.old)) (world_seen (P.state plant.new) config.now r journal.new.events) (refusal_of result) (world_seen (P.state plant.old) config.now r journal.old.events)
        (now (Relate t.0 s.0 (choices o.now)) ∷ []) }
    ensures refused { OnErr result (refusal_of result ≡ Some (stopped (volume_seen (P.state plant.old) config.now t.0).server)) }
    ensures rest { IsAtRest (P.state plant.new) config.now }
    ensures fit { RelationsFit (P.state plant.new) config.now }
    ensures unarmed { (q : ℕ) → (P.state plant.old).read_fuse q ≡ None → (P.state plant.new).read_fuse q ≡ None }
    ensures faults { Counted (is_stop (refusal_of result)) (P.state plant.old).faults (P.state plant.new).faults }
    ensures others { OthersStay (P.state plant.old) (P.state plant.new) config.now t.0 }
    ensures shows { OnOk result ((k : ℕ) → view_seen (P.state plant.new) config.now t.0 k ≡ view_seen (P.state plant.old) config.now s.0 k) }
    ensures others_show { OthersShow (P.state plant.old) (P.state plant.new) config.now t.0 }
    ensures on { OnOk result ((P.state plant.new).on ≡ (P.state plant.old).on) }
    ensures room { journal.old.spare ≤ journal.new.spare + 2 }
    ensures spare { length journal.new.events + journal.new.spare ≡ length journal.old.events + journal.old.spare }
{
    let options = *o;
    let m = Move::Relate { v: t, s, options };
    make_move(plant, config, journal, &m, None)
}

/// Makes t a target of s; the caller knows both volumes. Refused, in this order, where the server of s is off, s and t are
/// one, their servers or sizes differ, t is a target or a source, s is a target, t has a part in a pair, or s has 12 targets.
/// Fails too where the server stops in the move or goes off at a read. The journal needs room for two events.
pub fn establish<P: Plant>(
    plant: &mut P,
    config: &Config,
    journal: &mut Journal,
    s: VolumeId,
    t: VolumeId,
    o: &FlashOptions,
) -> Result<(), Refusal>
    requires rest { IsAtRest (P.state plant.old) config.now }
    requires fit { RelationsFit (P.state plant.old) config.now }
    requires source { IsSome (place_of config.now s.0) }
    requires target { IsSome (place_of config.now t.0) }
    requires room { 2 ≤ journal.old.spare }
    ensures carried { (r : Rest) → Ends (armed_in (P.state plant.old)) (world_seen (P.state plant.new) config.now r journal.new.events) (refusal_of result) (world_seen (P.state plant.old) config.now r journal.old.events)
        (flash_entries (world_seen (P.state plant.old) config.now r journal.old.events).control s.0 t.0 (choices o.now)) }
    ensures unchanged { is_stop (refusal_of result) ≡ false → OnErr result ((P.state plant.new ≡ P.state plant.old) × (journal.new ≡ journal.old)) }
    ensures rest { IsAtRest (P.state plant.new) config.now }
    ensures fit { RelationsFit (P.state plant.new) config.now }
    ensures unarmed { (q : ℕ) → (P.state plant.old).read_fuse q ≡ None → (P.state plant.new).read_fuse q ≡ None }
    ensures faults { Counted (is_stop (refusal_of result)) (P.state plant.old).faults (P.state plant.new).faults }
    ensures others { OthersStay (P.state plant.old) (P.state plant.new) config.now t.0 }
    ensures shows { OnOk result ((k : ℕ) → view_seen (P.state plant.new) config.now t.0 k ≡ view_seen (P.state plant.old) config.now s.0 k) }
    ensures others_show { OthersShow (P.state plant.old) (P.state plant.new) config.now t.0 }
    ensures on { OnOk result ((P.state plant.new).on ≡ (P.state plant.old).on) }
    ensures room { journal.old.spare ≤ journal.new.spare + 2 }
    ensures spare { length journal.new.events + journal.new.spare ≡ length journal.old.events + journal.old.spare }
{
    if let Some(why) = establish_refusal(plant, config, s, t) {
        return Err(why);
    }
    make_target(plant, config, journal, s, t, o)
}
