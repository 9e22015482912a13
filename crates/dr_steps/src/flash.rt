//! The steps on FlashCopy relationships and flash holds.

ghost use Rattle.std.specs.Prelude.{◌≡◌, ℕ, ◌≤◌, ◌+◌, length, None, IsSome};
ghost use Rattle.dr_logic.specs.Counts.{Counted};
ghost use Rattle.dr_config.specs.Table.{place_of};
ghost use Rattle.dr_model.specs.Laws.{Sound};
ghost use Rattle.dr_model.specs.Plans as plans;
ghost use Rattle.dr_model.specs.ReadStops.{Ends};
ghost use Rattle.dr_model.specs.Runs.{after_plan, said};
ghost use Rattle.dr_volume.specs.View.{Rest};
ghost use Rattle.dr_moves.specs.Checks.{is_stop};
ghost use Rattle.dr_moves.specs.Fit.{RelationsFit};
ghost use Rattle.dr_moves.specs.Here.{world_seen, refusal_of, armed_in, IsAtRest};
ghost use Rattle.dr_moves.specs.Options.{choices};
ghost use Rattle.dr_steps.specs.Faults.{CountsStop};
ghost use Rattle.dr_steps.specs.Here.{said_of, here, IsReady};
ghost use Rattle.dr_steps.specs.WellFormed.{FitsOwner};

use crate::locate::{found_refusal, is_named, unknown_lss, unknown_server};
use crate::tables::Tables;
use dr_cgflash::{freeze_flash, unfreeze};
use dr_config::Config;
use dr_flash::{establish, withdraw};
use dr_gmirror::{leaving, restore_refusal};
use dr_ids::{Lss, Refusal, VolumeId};
use dr_incr::{resync, reverse_start};
use dr_model::{Addition, Journal, Name};
use dr_moves::FlashOptions;
use dr_plant::Plant;

/// Makes t a target of s, with a flash hold of s before it or without one.
fn establish_as<P: Plant>(
    plant: &mut P,
    config: &Config,
    journal: &mut Journal,
    s: VolumeId,
    t: VolumeId,
    freeze: bool,
    options: &FlashOptions,
) -> Result<(), Refusal>
    requires rest { IsAtRest (P.state plant.old) config.now }
    requires fit { RelationsFit (P.state plant.old) config.now }
    requires source { IsSome (place_of config.now s.0) }
    requires target { IsSome (place_of config.now t.0) }
    requires room { 3 ≤ journal.old.spare }
    ensures carried { (r : Rest) → Ends (armed_in (P.state plant.old)) (world_seen (P.state plant.new) config.now r journal.new.events) (refusal_of result) (world_seen (P.state plant.old) config.now r journal.old.events)
        (plans.establish_entries (world_seen (P.state plant.old) config.now r journal.old.events).control s.0 t.0 freeze (choices options.now)) }
    ensures rest { IsAtRest (P.state plant.new) config.now }
    ensures unarmed { (q : ℕ) → (P.state plant.old).read_fuse q ≡ None → (P.state plant.new).read_fuse q ≡ None }
    ensures faults { Counted (is_stop (refusal_of result)) (P.state plant.old).faults (P.state plant.new).faults }
    ensures room { journal.old.spare ≤ journal.new.spare + 3 }
{
    if freeze {
        freeze_flash(plant, config, journal, s, t, options)
    } else {
        establish(plant, config, journal, s, t, options)
    }
}

/// Makes a volume the FlashCopy target of another. Where `freeze` says so, host writes on that wait from before it.
pub fn make_flash<P: Plant>(
    plant: &mut P,
    config: &Config,
    tables: &Tables,
    journal: &mut Journal,
    dev: &Option<Name>,
    s: VolumeId,
    t: VolumeId,
    freeze: bool,
    options: &FlashOptions,
) -> Result<Addition, Refusal>
    requires ready { IsReady (P.state plant.old) config.now tables.now journal.old.events }
    requires sound { Sound (here (P.state plant.old) config.now tables.now journal.old.events) }
    requires short { FitsOwner dev.now }
    requires room { 512 ≤ journal.old.spare }
    ensures step { (line : ℕ) → after_plan (here (P.state plant.old) config.now tables.now journal.old.events) line
        (plans.make_flash_plan (here (P.state plant.old) config.now tables.now journal.old.events).control dev.now s.0 t.0 freeze (choices options.now))
        ≡ said (here (P.state plant.new) config.now tables.now journal.new.events) line (said_of result) }
    ensures faults { CountsStop (said_of result) (P.state plant.old) (P.state plant.new) }
    ensures ready { IsReady (P.state plant.new) config.now tables.now journal.new.events }
    ensures room { 1 ≤ journal.new.spare }
{
    if let Some(why) = found_refusal(config, dev, s, t) {
        return Err(why);
    }
    match establish_as(plant, config, journal, s, t, freeze, options) {
        Ok(()) => Ok(Addition::Alone),
        Err(refusal) => Err(refusal),
    }
}

/// Takes the flash holds of a logical subsystem's volumes off. Refused where no volume lies in it, where its server isn't the one
/// that the line names, or where that is off.
pub fn unfreeze_flash<P: Plant>(
    plant: &mut P,
    config: &Config,
    tables: &Tables,
    journal: &mut Journal,
    dev: &Option<Name>,
    l: Lss,
) -> Result<Addition, Refusal>
    requires ready { IsReady (P.state plant.old) config.now tables.now journal.old.events }
    requires sound { Sound (here (P.state plant.old) config.now tables.now journal.old.events) }
    requires short { FitsOwner dev.now }
    requires room { 512 ≤ journal.old.spare }
    ensures step { (line : ℕ) → after_plan (here (P.state plant.old) config.now tables.now journal.old.events) line
        (plans.release_plan (here (P.state plant.old) config.now tables.now journal.old.events).control dev.now l.0)
        ≡ said (here (P.state plant.new) config.now tables.now journal.new.events) line (said_of result) }
    ensures faults { CountsStop (said_of result) (P.state plant.old) (P.state plant.new) }
    ensures ready { IsReady (P.state plant.new) config.now tables.now journal.new.events }
    ensures room { 1 ≤ journal.new.spare }
{
    let Some(server) = config.lss_owner(l) else {
        return Err(unknown_lss());
    };
    if !is_named(config, dev, server) {
        return Err(unknown_server());
    }
    if !plant.is_on(server.0) {
        return Err(Refusal::ServerOff { server });
    }
    match unfreeze(plant, config, journal, l) {
        Ok(()) => Ok(Addition::Alone),
        Err(refusal) => Err(refusal),
    }
}

/// Ends the relationship of a FlashCopy target, which isn't a member's: the tracks that it doesn't hold read zeros.
pub fn remove_flash<P: Plant>(
    plant: &mut P,
    config: &Config,
    tables: &Tables,
    journal: &mut Journal,
    dev: &Option<Name>,
    s: VolumeId,
    t: VolumeId,
) -> Result<Addition, Refusal>
    requires ready { IsReady (P.state plant.old) config.now tables.now journal.old.events }
    requires sound { Sound (here (P.state plant.old) config.now tables.now journal.old.events) }
    requires short { FitsOwner dev.now }
    requires room { 512 ≤ journal.old.spare }
    ensures step { (line : ℕ) → after_plan (here (P.state plant.old) config.now tables.now journal.old.events) line
        (plans.remove_flash_plan (here (P.state plant.old) config.now tables.now journal.old.events).control dev.now s.0 t.0)
        ≡ said (here (P.state plant.new) config.now tables.now journal.new.events) line (said_of result) }
    ensures faults { CountsStop (said_of result) (P.state plant.old) (P.state plant.new) }
    ensures ready { IsReady (P.state plant.new) config.now tables.now journal.new.events }
    ensures room { 1 ≤ journal.new.spare }
{
    if let Some(why) = found_refusal(config, dev, s, t) {
        return Err(why);
    }
    match withdraw(plant, config, journal, s, t) {
        Ok(()) => Ok(Addition::Alone),
        Err(refusal) => Err(refusal),
    }
}

/// Makes a FlashCopy target, which isn't a member's, a copy of its source anew.
pub fn resync_flash<P: Plant>(
    plant: &mut P,
    config: &Config,
    tables: &Tables,
    journal: &mut Journal,
    dev: &Option<Name>,
    s: VolumeId,
    t: VolumeId,
    sequence: Option<u32>,
) -> Result<Addition, Refusal>
    requires ready { IsReady (P.state plant.old) config.now tables.now journal.old.events }
    requires sound { Sound (here (P.state plant.old) config.now tables.now journal.old.events) }
    requires short { FitsOwner dev.now }
    requires room { 512 ≤ journal.old.spare }
    ensures step { (line : ℕ) → after_plan (here (P.state plant.old) config.now tables.now journal.old.events) line
        (plans.resync_flash_plan (here (P.state plant.old) config.now tables.now journal.old.events).control dev.now s.0 t.0 sequence)
        ≡ said (here (P.state plant.new) config.now tables.now journal.new.events) line (said_of result) }
    ensures faults { CountsStop (said_of result) (P.state plant.old) (P.state plant.new) }
    ensures ready { IsReady (P.state plant.new) config.now tables.now journal.new.events }
    ensures room { 1 ≤ journal.new.spare }
{
    if let Some(why) = found_refusal(config, dev, s, t) {
        return Err(why);
    }
    match resync(plant, config, journal, s, t, sequence) {
        Ok(()) => Ok(Addition::Alone),
        Err(refusal) => Err(refusal),
    }
}

/// Begins to restore a FlashCopy target onto its source. The target of a session's member leaves the session by it; that is refused
/// while a secondary of the session's members is on a server that is off, or something is still to be done with their targets.
pub fn reverse_flash<P: Plant>(
    plant: &mut P,
    config: &Config,
    tables: &Tables,
    journal: &mut Journal,
    dev: &Option<Name>,
    s: VolumeId,
    t: VolumeId,
) -> Result<Addition, Refusal>
    requires ready { IsReady (P.state plant.old) config.now tables.now journal.old.events }
    requires sound { Sound (here (P.state plant.old) config.now tables.now journal.old.events) }
    requires short { FitsOwner dev.now }
    requires few { length config.now.volumes ≤ 64 }
    requires room { 512 ≤ journal.old.spare }
    ensures step { (line : ℕ) → after_plan (here (P.state plant.old) config.now tables.now journal.old.events) line
        (plans.reverse_flash_plan (here (P.state plant.old) config.now tables.now journal.old.events).control dev.now s.0 t.0)
        ≡ said (here (P.state plant.new) config.now tables.now journal.new.events) line (said_of result) }
    ensures faults { CountsStop (said_of result) (P.state plant.old) (P.state plant.new) }
    ensures ready { IsReady (P.state plant.new) config.now tables.now journal.new.events }
    ensures room { 1 ≤ journal.new.spare }
{
    if let Some(why) = found_refusal(config, dev, s, t) {
        return Err(why);
    }
    let unsettled = restore_refusal(plant, config, &tables.sessions, t);
    let left = leaving(plant, config, &tables.sessions, t);
    match reverse_start(plant, config, journal, s, t, unsettled, left) {
        Ok(()) => Ok(Addition::Alone),
        Err(refusal) => Err(refusal),
    }
}
