//! The steps of recoveries, and of commits and reverts by hand.

ghost use Rattle.std.specs.Prelude.{◌≡◌, ℕ, ◌≤◌, false, length};
ghost use Rattle.dr_model.specs.Laws.{Sound};
ghost use Rattle.dr_model.specs.Limits.{step_events};
ghost use Rattle.dr_model.specs.RecoveryPlans as plans;
ghost use Rattle.dr_model.specs.Runs.{after_plan, said};
ghost use Rattle.dr_recover.specs.Outcomes.{lets_by};
ghost use Rattle.dr_steps.specs.Faults.{CountsStop, is_stopped};
ghost use Rattle.dr_steps.specs.Here.{here, said_of, IsReady};
ghost use Rattle.dr_steps.specs.WellFormed.{FitsOwner};

use crate::locate::{name_refusal, off_refusal, unknown_session};
use crate::tables::Tables;
use dr_config::Config;
use dr_ids::{Kind, Refusal, SessionId, VolumeId};
use dr_model::{Addition, Journal, Name};
use dr_plant::Plant;
use dr_recover::{Recovered, act, recover};

/// What a recovery answers: the group that is left with what was decided, or else that no group is left.
fn group_answer(recovered: Recovered) -> Result<Addition, Refusal>
    ensures says { said_of result ≡ plans.says_group recovered.decision recovered.group }
    ensures calm { is_stopped (said_of result) ≡ false }
{
    match recovered.group {
        Some(group) => Ok(Addition::InGroup {
            group,
            decision: recovered.decision,
        }),
        None => Err(Refusal::NoGroup {
            decision: recovered.decision,
        }),
    }
}

/// A session is recovered, and the answer says the group that is left with what was decided. Refused where the session isn't
/// defined, where the server of a secondary of its members is off, or at the end where no group is left.
pub fn recover_session<P: Plant>(
    plant: &mut P,
    config: &Config,
    tables: &Tables,
    journal: &mut Journal,
    s: SessionId,
) -> Result<Addition, Refusal>
    requires ready { IsReady (P.state plant.old) config.now tables.now journal.old.events }
    requires sound { Sound (here (P.state plant.old) config.now tables.now journal.old.events) }
    requires few { length config.now.volumes ≤ 64 }
    requires room { step_events ≤ journal.old.spare }
    ensures step { (line : ℕ) → after_plan (here (P.state plant.old) config.now tables.now journal.old.events) line
        (plans.recover_plan (here (P.state plant.old) config.now tables.now journal.old.events).control s.0)
        ≡ said (here (P.state plant.new) config.now tables.now journal.new.events) line (said_of result) }
    ensures faults { CountsStop (said_of result) (P.state plant.old) (P.state plant.new) }
    ensures ready { IsReady (P.state plant.new) config.now tables.now journal.new.events }
    ensures room { 1 ≤ journal.new.spare }
{
    if !tables.sessions.is_defined(s) {
        return Err(unknown_session());
    }
    match recover(plant, config, journal, &tables.sessions, s) {
        Ok(recovered) => group_answer(recovered),
        Err(refusal) => Err(refusal),
    }
}

/// The flash on the revertible target of a volume is committed, or else reverted. Refused where the volume isn't defined, where
/// its server isn't the one that is named or is off, or where the target can't be committed, or else reverted, now.
fn settle_flash<P: Plant>(
    plant: &mut P,
    config: &Config,
    tables: &Tables,
    journal: &mut Journal,
    dev: &Option<Name>,
    source: VolumeId,
    commit: bool,
) -> Result<Addition, Refusal>
    requires ready { IsReady (P.state plant.old) config.now tables.now journal.old.events }
    requires sound { Sound (here (P.state plant.old) config.now tables.now journal.old.events) }
    requires short { FitsOwner dev.now }
    requires few { length config.now.volumes ≤ 64 }
    requires room { step_events ≤ journal.old.spare }
    ensures step { (line : ℕ) → after_plan (here (P.state plant.old) config.now tables.now journal.old.events) line
        (plans.settle_plan (here (P.state plant.old) config.now tables.now journal.old.events).control dev.now (lets_by commit) source.0)
        ≡ said (here (P.state plant.new) config.now tables.now journal.new.events) line (said_of result) }
    ensures faults { CountsStop (said_of result) (P.state plant.old) (P.state plant.new) }
    ensures ready { IsReady (P.state plant.new) config.now tables.now journal.new.events }
    ensures room { 1 ≤ journal.new.spare }
{
    let Some(server) = config.server_of(source) else {
        return Err(Refusal::Unknown { kind: Kind::Volume });
    };
    if let Some(why) = name_refusal(config, dev, server) {
        return Err(why);
    }
    if let Some(why) = off_refusal(plant, server) {
        return Err(why);
    }
    match act(plant, config, journal, &tables.sessions, source, commit) {
        Ok(()) => Ok(Addition::Alone),
        Err(refusal) => Err(refusal),
    }
}

/// The flash on the revertible target of a volume is committed.
pub fn commit_flash<P: Plant>(
    plant: &mut P,
    config: &Config,
    tables: &Tables,
    journal: &mut Journal,
    dev: &Option<Name>,
    source: VolumeId,
) -> Result<Addition, Refusal>
    requires ready { IsReady (P.state plant.old) config.now tables.now journal.old.events }
    requires sound { Sound (here (P.state plant.old) config.now tables.now journal.old.events) }
    requires short { FitsOwner dev.now }
    requires few { length config.now.volumes ≤ 64 }
    requires room { step_events ≤ journal.old.spare }
    ensures step { (line : ℕ) → after_plan (here (P.state plant.old) config.now tables.now journal.old.events) line
        (plans.settle_plan (here (P.state plant.old) config.now tables.now journal.old.events).control dev.now plans.lets_commit source.0)
        ≡ said (here (P.state plant.new) config.now tables.now journal.new.events) line (said_of result) }
    ensures faults { CountsStop (said_of result) (P.state plant.old) (P.state plant.new) }
    ensures ready { IsReady (P.state plant.new) config.now tables.now journal.new.events }
    ensures room { 1 ≤ journal.new.spare }
{
    settle_flash(plant, config, tables, journal, dev, source, true)
}

/// The flash on the revertible target of a volume is reverted.
pub fn revert_flash<P: Plant>(
    plant: &mut P,
    config: &Config,
    tables: &Tables,
    journal: &mut Journal,
    dev: &Option<Name>,
    source: VolumeId,
) -> Result<Addition, Refusal>
    requires ready { IsReady (P.state plant.old) config.now tables.now journal.old.events }
    requires sound { Sound (here (P.state plant.old) config.now tables.now journal.old.events) }
    requires short { FitsOwner dev.now }
    requires few { length config.now.volumes ≤ 64 }
    requires room { step_events ≤ journal.old.spare }
    ensures step { (line : ℕ) → after_plan (here (P.state plant.old) config.now tables.now journal.old.events) line
        (plans.settle_plan (here (P.state plant.old) config.now tables.now journal.old.events).control dev.now plans.lets_revert source.0)
        ≡ said (here (P.state plant.new) config.now tables.now journal.new.events) line (said_of result) }
    ensures faults { CountsStop (said_of result) (P.state plant.old) (P.state plant.new) }
    ensures ready { IsReady (P.state plant.new) config.now tables.now journal.new.events }
    ensures room { 1 ≤ journal.new.spare }
{
    settle_flash(plant, config, tables, journal, dev, source, false)
}
