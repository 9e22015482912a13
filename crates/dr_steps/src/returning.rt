//! The steps on the way back: a secondary is taken over, and a pair goes on the other way round.

ghost use Rattle.std.specs.Prelude.{◌≡◌, ℕ, ◌≤◌, ◌+◌, false, length, None, IsSome};
ghost use Rattle.dr_logic.specs.Counts.{Counted};
ghost use Rattle.dr_config.specs.Table.{place_of};
ghost use Rattle.dr_model.specs.Laws.{Sound};
ghost use Rattle.dr_model.specs.Layout as part;
ghost use Rattle.dr_model.specs.Limits.{step_events};
ghost use Rattle.dr_model.specs.PairEntries.{failover_entries};
ghost use Rattle.dr_model.specs.Plans as plans;
ghost use Rattle.dr_model.specs.ReadStops.{Ends};
ghost use Rattle.dr_model.specs.Runs.{after_plan, said};
ghost use Rattle.dr_volume.specs.View.{Rest, track_seen};
ghost use Rattle.dr_moves.specs.Checks.{is_stop};
ghost use Rattle.dr_moves.specs.Fit.{RelationsFit};
ghost use Rattle.dr_moves.specs.Here.{world_seen, refusal_of, armed_in, IsAtRest};
ghost use Rattle.dr_gcopy.specs.Kinds.{part_of};
ghost use Rattle.dr_steps.specs.Faults.{CountsStop};
ghost use Rattle.dr_steps.specs.Forms.{is_plain, is_relation, is_pair, is_session, is_recovery};
ghost use Rattle.dr_steps.specs.Here.{said_of, here, StepLeads, IsReady};
ghost use Rattle.dr_steps.specs.WellFormed.{FitsDevs, IsWellFormed};

use crate::locate::{found_volumes, undefined_refusal};
use crate::pairs::kind_of;
use crate::tables::Tables;
use dr_cascade::leave;
use dr_config::Config;
use dr_failover::{compare_volumes, failback, failover, failover_refusal};
use dr_gcopy::{CopyKind, part_of};
use dr_ids::{Refusal, VolumeId};
use dr_model::{Addition, Devs, Journal, Step};
use dr_moves::is_cascaded;
use dr_plant::Plant;
use dr_volume::peek_head;

/// Takes secondary b of a over: it becomes a Suspended primary of a.
pub fn fail_over<P: Plant>(
    plant: &mut P,
    config: &Config,
    tables: &Tables,
    journal: &mut Journal,
    devs: &Devs,
    b: VolumeId,
    a: VolumeId,
    kind: u8,
) -> Result<Addition, Refusal>
    requires ready { IsReady (P.state plant.old) config.now tables.now journal.old.events }
    requires sound { Sound (here (P.state plant.old) config.now tables.now journal.old.events) }
    requires short { FitsDevs devs.now }
    requires room { 512 ≤ journal.old.spare }
    ensures step { (line : ℕ) → after_plan (here (P.state plant.old) config.now tables.now journal.old.events) line
        (plans.failover_plan (here (P.state plant.old) config.now tables.now journal.old.events).control devs.now b.0 a.0 (part.kind_of kind))
        ≡ said (here (P.state plant.new) config.now tables.now journal.new.events) line (said_of result) }
    ensures faults { CountsStop (said_of result) (P.state plant.old) (P.state plant.new) }
    ensures ready { IsReady (P.state plant.new) config.now tables.now journal.new.events }
    ensures room { 1 ≤ journal.new.spare }
{
    if let Some(why) = found_volumes(config, devs, b, a) {
        return Err(why);
    }
    match take_or_leave(plant, config, journal, b, a, kind_of(kind)) {
        Ok(()) => Ok(Addition::Alone),
        Err(refusal) => Err(refusal),
    }
}

/// Takes secondary b of a over, or, where it is cascaded, leaves a.
fn take_or_leave<P: Plant>(
    plant: &mut P,
    config: &Config,
    journal: &mut Journal,
    b: VolumeId,
    a: VolumeId,
    kind: CopyKind,
) -> Result<(), Refusal>
    requires rest { IsAtRest (P.state plant.old) config.now }
    requires fit { RelationsFit (P.state plant.old) config.now }
    requires defined { IsSome (place_of config.now b.0) }
    requires room { 2 ≤ journal.old.spare }
    ensures carried { (r : Rest) → Ends (armed_in (P.state plant.old)) (world_seen (P.state plant.new) config.now r journal.new.events) (refusal_of result) (world_seen (P.state plant.old) config.now r journal.old.events)
        (failover_entries (world_seen (P.state plant.old) config.now r journal.old.events).control b.0 a.0 (part_of kind)) }
    ensures rest { IsAtRest (P.state plant.new) config.now }
    ensures unarmed { (q : ℕ) → (P.state plant.old).read_fuse q ≡ None → (P.state plant.new).read_fuse q ≡ None }
    ensures faults { Counted (is_stop (refusal_of result)) (P.state plant.old).faults (P.state plant.new).faults }
    ensures room { journal.old.spare ≤ journal.new.spare + 2 }
{
    if !is_cascaded(&peek_head(plant, config, b)) {
        return failover(plant, config, journal, b, a, kind);
    }
    if let Some(why) = failover_refusal(plant, config, b, a, part_of(kind)) {
        return Err(why);
    }
    leave(plant, config, journal, b)
}

/// Of two volumes that are primaries of each other x goes on as the primary, and y becomes its secondary. Where a target of y is a
/// member's, that is refused as its restore would be.
pub fn fail_back<P: Plant>(
    plant: &mut P,
    config: &Config,
    tables: &Tables,
    journal: &mut Journal,
    devs: &Devs,
    x: VolumeId,
    y: VolumeId,
    kind: u8,
) -> Result<Addition, Refusal>
    requires ready { IsReady (P.state plant.old) config.now tables.now journal.old.events }
    requires sound { Sound (here (P.state plant.old) config.now tables.now journal.old.events) }
    requires short { FitsDevs devs.now }
    requires few { length config.now.volumes ≤ 64 }
    requires room { 512 ≤ journal.old.spare }
    ensures step { (line : ℕ) → after_plan (here (P.state plant.old) config.now tables.now journal.old.events) line
        (plans.failback_plan (here (P.state plant.old) config.now tables.now journal.old.events).control devs.now x.0 y.0 (part.kind_of kind))
        ≡ said (here (P.state plant.new) config.now tables.now journal.new.events) line (said_of result) }
    ensures faults { CountsStop (said_of result) (P.state plant.old) (P.state plant.new) }
    ensures ready { IsReady (P.state plant.new) config.now tables.now journal.new.events }
    ensures room { 1 ≤ journal.new.spare }
{
    if let Some(why) = found_volumes(config, devs, x, y) {
        return Err(why);
    }
    match failback(
        plant,
        config,
        journal,
        &tables.sessions,
        x,
        y,
        kind_of(kind),
    ) {
        Ok(()) => Ok(Addition::Alone),
        Err(refusal) => Err(refusal),
    }
}

/// Looks whether two volumes contain the same on each track, whatever they show.
pub fn compare<P: Plant>(
    plant: &mut P,
    config: &Config,
    tables: &Tables,
    journal: &mut Journal,
    v: VolumeId,
    u: VolumeId,
) -> Result<Addition, Refusal>
    requires ready { IsReady (P.state plant.old) config.now tables.now journal.old.events }
    requires sound { Sound (here (P.state plant.old) config.now tables.now journal.old.events) }
    requires room { 512 ≤ journal.old.spare }
    ensures step { (line : ℕ) → after_plan (here (P.state plant.old) config.now tables.now journal.old.events) line
        (plans.compare_plan (here (P.state plant.old) config.now tables.now journal.old.events).control (track_seen (P.state plant.old) config.now) v.0 u.0)
        ≡ said (here (P.state plant.new) config.now tables.now journal.new.events) line (said_of result) }
    ensures faults { CountsStop (said_of result) (P.state plant.old) (P.state plant.new) }
    ensures ready { IsReady (P.state plant.new) config.now tables.now journal.new.events }
    ensures room { 1 ≤ journal.new.spare }
{
    if let Some(why) = undefined_refusal(config, v, u) {
        return Err(why);
    }
    match compare_volumes(plant, config, journal, v, u) {
        Ok(()) => Ok(Addition::Alone),
        Err(refusal) => Err(refusal),
    }
}

/// Carries out a step that turns a pair round. One with a course of its own comes to no plan: nothing is done.
pub fn carry_return<P: Plant>(
    plant: &mut P,
    config: &Config,
    tables: &Tables,
    journal: &mut Journal,
    step: &Step,
) -> Result<Addition, Refusal>
    requires ready { IsReady (P.state plant.old) config.now tables.now journal.old.events }
    requires sound { Sound (here (P.state plant.old) config.now tables.now journal.old.events) }
    requires fits { IsWellFormed step.now }
    requires few { length config.now.volumes ≤ 64 }
    requires room { step_events ≤ journal.old.spare }
    requires form { is_plain step.now ≡ false }
    requires session { is_session step.now ≡ false }
    requires recovery { is_recovery step.now ≡ false }
    requires other { is_relation step.now ≡ false }
    requires pair { is_pair step.now ≡ false }
    ensures step { (line : ℕ) → StepLeads (here (P.state plant.old) config.now tables.now journal.old.events) line step.now
        (here (P.state plant.new) config.now tables.now journal.new.events) (said_of result) }
    ensures faults { CountsStop (said_of result) (P.state plant.old) (P.state plant.new) }
    ensures ready { IsReady (P.state plant.new) config.now tables.now journal.new.events }
    ensures room { 1 ≤ journal.new.spare }
{
    match *step {
        Step::Failover { devs, b, a, kind } => fail_over(
            plant,
            config,
            tables,
            journal,
            &devs,
            VolumeId(b),
            VolumeId(a),
            kind,
        ),
        Step::Failback { devs, x, y, kind } => fail_back(
            plant,
            config,
            tables,
            journal,
            &devs,
            VolumeId(x),
            VolumeId(y),
            kind,
        ),
        _ => Ok(Addition::Alone),
    }
}
