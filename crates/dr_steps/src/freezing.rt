//! The steps that freeze and thaw the pairs between two logical subsystems.

ghost use Rattle.std.specs.Prelude.{◌≡◌, ℕ, ◌≤◌};
ghost use Rattle.dr_model.specs.Laws.{Sound};
ghost use Rattle.dr_model.specs.Plans as plans;
ghost use Rattle.dr_model.specs.Runs.{after_plan, said};
ghost use Rattle.dr_steps.specs.Faults.{CountsStop};
ghost use Rattle.dr_steps.specs.Here.{here, said_of, IsReady};
ghost use Rattle.dr_steps.specs.WellFormed.{FitsDevs};

use crate::locate::{are_named, unknown_lss, unknown_server};
use crate::tables::Tables;
use dr_config::Config;
use dr_freeze::thaw;
use dr_ids::{Kind, Lss, Refusal};
use dr_model::{Addition, Devs, Journal};
use dr_plant::Plant;

/// Freezes the pairs from one logical subsystem to another: each primary is suspended and long busy, and the path is removed.
/// Refused where no volume lies in one of them, where there is no such path, where their servers aren't those that the line
/// names, or where that of the source is off.
pub fn freeze<P: Plant>(
    plant: &mut P,
    config: &mut Config,
    tables: &Tables,
    journal: &mut Journal,
    devs: &Devs,
    src: Lss,
    tgt: Lss,
) -> Result<Addition, Refusal>
    requires ready { IsReady (P.state plant.old) config.old tables.now journal.old.events }
    requires sound { Sound (here (P.state plant.old) config.old tables.now journal.old.events) }
    requires short { FitsDevs devs.now }
    requires room { 512 ≤ journal.old.spare }
    ensures step { (line : ℕ) → after_plan (here (P.state plant.old) config.old tables.now journal.old.events) line
        (plans.freeze_plan (here (P.state plant.old) config.old tables.now journal.old.events).control devs.now src.0 tgt.0)
        ≡ said (here (P.state plant.new) config.new tables.now journal.new.events) line (said_of result) }
    ensures faults { CountsStop (said_of result) (P.state plant.old) (P.state plant.new) }
    ensures ready { IsReady (P.state plant.new) config.new tables.now journal.new.events }
    ensures room { 1 ≤ journal.new.spare }
{
    let Some(first) = config.lss_owner(src) else {
        return Err(unknown_lss());
    };
    let Some(second) = config.lss_owner(tgt) else {
        return Err(unknown_lss());
    };
    let Some(_) = config.path(src, tgt) else {
        return Err(Refusal::Unknown { kind: Kind::Path });
    };
    if !are_named(config, devs, first, second) {
        return Err(unknown_server());
    }
    if !plant.is_on(first.0) {
        return Err(Refusal::ServerOff { server: first });
    }
    match dr_freeze::freeze(plant, config, journal, src, tgt) {
        Ok(()) => Ok(Addition::Alone),
        Err(refusal) => Err(refusal),
    }
}

/// Thaws the pairs from one logical subsystem to another: their primaries are long busy no more. Refused where no volume lies
/// in one of them, where their servers aren't those that the line names, or where that of the source is off.
pub fn unfreeze<P: Plant>(
    plant: &mut P,
    config: &Config,
    tables: &Tables,
    journal: &mut Journal,
    devs: &Devs,
    src: Lss,
    tgt: Lss,
) -> Result<Addition, Refusal>
    requires ready { IsReady (P.state plant.old) config.now tables.now journal.old.events }
    requires sound { Sound (here (P.state plant.old) config.now tables.now journal.old.events) }
    requires short { FitsDevs devs.now }
    requires room { 512 ≤ journal.old.spare }
    ensures step { (line : ℕ) → after_plan (here (P.state plant.old) config.now tables.now journal.old.events) line
        (plans.thaw_plan (here (P.state plant.old) config.now tables.now journal.old.events).control devs.now src.0 tgt.0)
        ≡ said (here (P.state plant.new) config.now tables.now journal.new.events) line (said_of result) }
    ensures faults { CountsStop (said_of result) (P.state plant.old) (P.state plant.new) }
    ensures ready { IsReady (P.state plant.new) config.now tables.now journal.new.events }
    ensures room { 1 ≤ journal.new.spare }
{
    let Some(first) = config.lss_owner(src) else {
        return Err(unknown_lss());
    };
    let Some(second) = config.lss_owner(tgt) else {
        return Err(unknown_lss());
    };
    if !are_named(config, devs, first, second) {
        return Err(unknown_server());
    }
    if !plant.is_on(first.0) {
        return Err(Refusal::ServerOff { server: first });
    }
    match thaw(plant, config, journal, src, tgt) {
        Ok(()) => Ok(Addition::Alone),
        Err(refusal) => Err(refusal),
    }
}
