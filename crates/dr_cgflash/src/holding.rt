//! A target is made while host writes on its source wait.

ghost use Rattle.std.specs.Prelude.{◌≡◌, ◌≢◌, ◌⊎◌, ℕ, ◌≤◌, ◌+◌, true, false, None, IsSome, OnOk, OnErr, length};
ghost use Rattle.dr_logic.specs.Counts.{Counted};
ghost use Rattle.dr_config.specs.Table.{StandsFor, place_of};
ghost use Rattle.dr_model.specs.Plans.{freeze_flash_entries};
ghost use Rattle.dr_model.specs.ReadStops.{Ends};
ghost use Rattle.dr_volume.specs.Update.{IsAsBefore};
ghost use Rattle.dr_volume.specs.View.{Rest, volume_seen};
ghost use Rattle.dr_moves.specs.Checks.{is_stop};
ghost use Rattle.dr_moves.specs.Coming.{Acted};
ghost use Rattle.dr_moves.specs.Fit.{RelationsFit};
ghost use Rattle.dr_moves.specs.Here.{world_seen, refusal_of, armed_in, IsAtRest};
ghost use Rattle.dr_moves.specs.Made.{IsAt};
ghost use Rattle.dr_moves.specs.Options.{choices};
ghost use Rattle.dr_flash.specs.Views.{view_seen};
ghost use Rattle.dr_cgflash.specs.Holding.{held_by};

use dr_config::Config;
use dr_flash::{establish_refusal, make_target};
use dr_ids::{Refusal, VolumeId};
use dr_model::Journal;
use dr_moves::{FlashOptions, Move, Next, act};
use dr_plant::Plant;
use dr_volume::peek_head;

/// A volume that has no flash hold gets one.
fn hold_next<P: Plant>(plant: &P, config: &Config, s: VolumeId) -> Next
    requires stands { StandsFor config.now (P.state plant.now) }
    requires source { IsSome (place_of config.now s.0) }
    ensures { result ≡ held_by s (volume_seen (P.state plant.now) config.now s.0).fields }
{
    if peek_head(plant, config, s).flash_hold {
        return Next::Pass;
    }
    Next::Do(Move::FlashHold { v: s })
}

/// Host writes on s wait from now on. Fails where its server stops in the move or goes off at a read. The journal needs room for
/// two events.
fn hold<P: Plant>(
    plant: &mut P,
    config: &Config,
    journal: &mut Journal,
    s: VolumeId,
) -> Result<(), Refusal>
    requires at { IsAt (P.state plant.old) config.now }
    requires source { IsSome (place_of config.now s.0) }
    requires running { (P.state plant.old).on (volume_seen (P.state plant.old) config.now s.0).server ≡ true }
    requires room { 2 ≤ journal.old.spare }
    ensures acted { Acted (P.state plant.old) (P.state plant.new) config.now journal.old journal.new (held_by s (volume_seen (P.state plant.old) config.now s.0).fields) result }
{
    let next = hold_next(plant, config, s);
    act(plant, config, journal, &next)
}

/// Makes t a target of s, and before that holds host writes on s, where no flash hold does so yet; the caller knows both volumes.
/// Refused as `establish` is; then nothing has changed. Fails too where the server stops in a move or goes off at a read: what
/// was done by then stays, so that s may have its hold without a target. The journal needs room for three events.
pub fn freeze_flash<P: Plant>(
    plant: &mut P,
    config: &Config,
    journal: &mut Journal,
    s: VolumeId,
    t: VolumeId,
    o: &FlashOptions,
) -> Result<(), Refusal>
    requires rest { IsAtRest (P.state plant.old) config.now }
    requires fit { RelationsFit (P.state plant.old) config.now }
    requires source { IsSome (place_of config.now s.0) }
    requires target { IsSome (place_of config.now t.0) }
    requires room { 3 ≤ journal.old.spare }
    ensures carried { (r : Rest) → Ends (armed_in (P.state plant.old)) (world_seen (P.state plant.new) config.now r journal.new.events) (refusal_of result) (world_seen (P.state plant.old) config.now r journal.old.events)
        (freeze_flash_entries (world_seen (P.state plant.old) config.now r journal.old.events).control s.0 t.0 (choices o.now)) }
    ensures unchanged { is_stop (refusal_of result) ≡ false → OnErr result ((P.state plant.new ≡ P.state plant.old) × (journal.new ≡ journal.old)) }
    ensures rest { IsAtRest (P.state plant.new) config.now }
    ensures fit { RelationsFit (P.state plant.new) config.now }
    ensures unarmed { (q : ℕ) → (P.state plant.old).read_fuse q ≡ None → (P.state plant.new).read_fuse q ≡ None }
    ensures faults { Counted (is_stop (refusal_of result)) (P.state plant.old).faults (P.state plant.new).faults }
    ensures held { OnOk result ((volume_seen (P.state plant.new) config.now s.0).fields.flash_hold ≡ true) }
    ensures first { IsAsBefore (P.state plant.old) (P.state plant.new) config.now t.0 ⊎ ((volume_seen (P.state plant.new) config.now s.0).fields.flash_hold ≡ true) }
    ensures others { (q : ℕ) → q ≢ s.0 → q ≢ t.0 → IsAsBefore (P.state plant.old) (P.state plant.new) config.now q }
    ensures shows { OnOk result ((k : ℕ) → view_seen (P.state plant.new) config.now t.0 k ≡ view_seen (P.state plant.new) config.now s.0 k) }
    ensures on { OnOk result ((P.state plant.new).on ≡ (P.state plant.old).on) }
    ensures room { journal.old.spare ≤ journal.new.spare + 3 }
    ensures spare { length journal.new.events + journal.new.spare ≡ length journal.old.events + journal.old.spare }
{
    if let Some(why) = establish_refusal(plant, config, s, t) {
        return Err(why);
    }
    hold(plant, config, journal, s)?;
    make_target(plant, config, journal, s, t, o)
}
